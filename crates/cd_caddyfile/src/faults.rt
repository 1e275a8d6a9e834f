//! The first fault of a file.
ghost use Rattle.std.specs.Prelude.{◌≡◌, ◌≤◌, [], length, map, reverse, IfOk, OnOk};
ghost use Rattle.cd_tree.specs.declared.limits.TheConstants.{MAX_TEXT_BYTES};
ghost use Rattle.cd_caddyfile.specs.Blocks.{Nesting, last, end, preceded_by};
ghost use Rattle.cd_caddyfile.specs.Faults.{fault_of, fault_at, own_faults, line_faults_of, line_faults, first_fault, sooner, is_misplaced, repeated_sites, repeated_matchers, unknown_matchers};
ghost use Rattle.cd_caddyfile.specs.FileSites.{matchers_in};
ghost use Rattle.cd_caddyfile.specs.Going.{Goes, HasRead};
ghost use Rattle.cd_caddyfile.specs.Left.{opening_lines};
ghost use Rattle.cd_caddyfile.specs.Lines.{without_return, lines_of, line_of};
ghost use Rattle.cd_caddyfile.specs.declared.fault.CaddyfileKind.TheVariants as kind;

use crate::fault::{CaddyfileFault, CaddyfileKind};
use crate::line::Line;
use crate::lines::{read_line, without_return};
use crate::named::Matchers;
use crate::notes::{Notes, fault_where, sooner};
use crate::reader::{OpenBlock, Reader};
use crate::repeats::{matcher_fault, site_fault};
use cd_text::{List, NoMemory, split_at_byte};
use cd_tree::MAX_TEXT_BYTES;
use std::alloc::Global;

/// The first fault of a file's lines, of which there are few enough to be counted, and its matchers.
pub fn read(alloc: Global, bytes: &[u8]) -> Result<ReadFile, NoMemory>
    requires { length bytes.now ≤ MAX_TEXT_BYTES }
    ensures fault { IfOk result (λ read. read.fault ≡ fault_of bytes.now) }
    ensures matchers { IfOk result (λ read. read.matchers ≡ matchers_in bytes.now) }
{
    let read = read_file(alloc, bytes)?;
    first_of(alloc, read)
}

/// What a file says of faults and of matchers.
#[derive(Drop)]
pub struct ReadFile {
    pub fault: Option<CaddyfileFault>,
    pub matchers: Matchers,
}

/// What has been read of a file, and the first fault of a line by itself.
#[derive(Drop)]
struct FileReader {
    text_fault: Option<CaddyfileFault>,
    reader: Reader,
}

fn read_file(alloc: Global, bytes: &[u8]) -> Result<FileReader, NoMemory>
    requires { length bytes.now ≤ MAX_TEXT_BYTES }
    ensures lines { IfOk result (λ read. read.text_fault ≡ first_fault (line_faults 1 (lines_of bytes.now))) }
    ensures all { IfOk result (λ read. HasRead bytes.now read.reader (last end)) }
{
    let mut file = FileReader::new(alloc);
    let mut number = 1u32;
    let mut rest = bytes;
    'lines: loop {
        match split_at_byte(rest, b'\n') {
            None => {
                file.take(alloc, number, rest)?;
                return Ok(file);
            }
            Some((line, after)) => {
                file.take(alloc, number, line)?;
                number += 1;
                rest = after;
            }
        }
    }
}

impl FileReader {
    fn new(alloc: Global) -> FileReader
        ensures text { result.text_fault ≡ None }
        ensures fault { result.reader.notes.fault ≡ None }
        ensures sites { result.reader.notes.sites ≡ [] }
        ensures defined { result.reader.notes.defined ≡ [] }
        ensures used { result.reader.notes.used ≡ [] }
        ensures tested { result.reader.notes.tested ≡ [] }
        ensures no_blocks { result.reader.blocks ≡ [] }
    {
        let notes = Notes {
            fault: None,
            sites: List::new(alloc),
            defined: List::new(alloc),
            used: List::new(alloc),
            tested: List::new(alloc),
        };
        FileReader {
            text_fault: None,
            reader: Reader {
                notes,
                blocks: List::new(alloc),
            },
        }
    }

    // Reads a line, with the CR at its end.
    fn take(&mut self, alloc: Global, number: u32, line: &[u8]) -> Result<(), NoMemory>
        ensures text { OnOk result (self.new.text_fault ≡ sooner self.old.text_fault (first_fault (line_faults_of number (without_return line.now)))) }
        ensures goes { OnOk result ((after : Nesting) → Goes self.old.reader self.new.reader (preceded_by number (line_of (without_return line.now)) after) after) }
    {
        let read = read_line(alloc, without_return(line))?;
        self.text_fault = sooner(
            self.text_fault,
            own_fault(number, read.is_bad_text, is_misplaced(&read.line)),
        );
        self.reader.take(alloc, number, read.line)
    }
}

fn own_fault(number: u32, is_bad_text: bool, is_misplaced: bool) -> Option<CaddyfileFault>
    ensures { result ≡ first_fault (own_faults number is_bad_text is_misplaced) }
{
    sooner(
        fault_where(is_bad_text, number, CaddyfileKind::BadText),
        fault_where(is_misplaced, number, CaddyfileKind::BadBlock),
    )
}

fn is_misplaced(line: &Line) -> bool
    ensures { result ≡ is_misplaced line.now }
{
    match line {
        Line::Empty => false,
        Line::Closes => false,
        Line::Opens(_) => false,
        Line::Says(_) => false,
        Line::Misplaced => true,
    }
}

// The first fault of all, and the matchers.
fn first_of(alloc: Global, read: FileReader) -> Result<ReadFile, NoMemory>
    ensures fault { IfOk result (λ found. found.fault ≡ sooner read.text_fault (sooner (first_fault (map (λ n. fault_at n kind.BadBlock) (opening_lines (reverse read.reader.blocks))))
        (sooner read.reader.notes.fault (sooner (first_fault (repeated_sites [] read.reader.notes.sites))
        (sooner (first_fault (repeated_matchers [] read.reader.notes.defined)) (first_fault (unknown_matchers read.reader.notes.defined read.reader.notes.used))))))) }
    ensures defined { IfOk result (λ found. found.matchers.defined ≡ read.reader.notes.defined) }
    ensures tested { IfOk result (λ found. found.matchers.tested ≡ read.reader.notes.tested) }
{
    let FileReader { text_fault, reader } = read;
    let Reader { notes, blocks } = reader;
    let open = open_fault(blocks);
    let compared = compared_fault(alloc, &notes)?;
    let fault = sooner(text_fault, sooner(open, sooner(notes.fault, compared)));
    Ok(ReadFile {
        fault,
        matchers: matchers_noted(notes),
    })
}

fn matchers_noted(notes: Notes) -> Matchers
    ensures defined { result.defined ≡ notes.defined }
    ensures tested { result.tested ≡ notes.tested }
{
    let Notes {
        fault: _,
        sites: _,
        defined,
        used: _,
        tested,
    } = notes;
    Matchers { defined, tested }
}

// Of sites and matchers that are compared with others.
fn compared_fault(alloc: Global, notes: &Notes) -> Result<Option<CaddyfileFault>, NoMemory>
    ensures { IfOk result (λ found. found ≡ sooner (first_fault (repeated_sites [] notes.now.sites))
        (sooner (first_fault (repeated_matchers [] notes.now.defined)) (first_fault (unknown_matchers notes.now.defined notes.now.used)))) }
{
    let site = site_fault(alloc, notes.sites.as_slice())?;
    let matcher = matcher_fault(alloc, notes.defined.as_slice(), notes.used.as_slice())?;
    Ok(sooner(site, matcher))
}

// Of blocks that are left open.
fn open_fault(mut blocks: List<OpenBlock>) -> Option<CaddyfileFault>
    ensures { result ≡ first_fault (map (λ n. fault_at n kind.BadBlock) (opening_lines (reverse blocks))) }
{
    let mut fault = None;
    'each: loop {
        match blocks.pop() {
            None => return fault,
            Some(block) => {
                let here = fault_where(true, block.line, CaddyfileKind::BadBlock);
                fault = sooner(fault, here);
            }
        }
    }
}
