//! The lines of each site of a file.
ghost use Rattle.std.specs.Prelude.{◌≡◌, ◌≤◌, ◌<◌, ◌+◌, ◌-◌, ◌^◌, ◌==◌, ◌&&◌, ℕ, List, ◌++◌, ◌∷◌, [], length, map, IfOk, OnOk, IsUtf8, Some, None};
ghost use Rattle.std.specs.List.{All};
ghost use Rattle.cd_tree.specs.declared.limits.TheConstants.{MAX_TEXT_BYTES};
ghost use Rattle.cd_caddyfile.specs.Blocks.{Nesting, preceded_by, end, last, file_lines};
ghost use Rattle.cd_caddyfile.specs.FileSites.{sites_in};
ghost use Rattle.cd_caddyfile.specs.Lines.{line_of, lines_of, without_return};
ghost use Rattle.cd_caddyfile.specs.Shorthands.{spelled};
ghost use Rattle.cd_caddyfile.specs.Sites.{Tests};
ghost use Rattle.cd_adapt.specs.Splitting.{site_made, sites_left, closes, levels_after, numbered, words_spelled, closings, followed, IsTextLine, AreTextsOf, IsWhole, IsOpen, IsSplit, size_of, open_size};

use cd_caddyfile::{Address, Line, address_of, read_line, spelled, without_return};
use cd_text::{List, NoMemory, Octets, split_at_byte};
use cd_tree::MAX_TEXT_BYTES;
use std::alloc::Global;

/// A line with its number.
#[derive(Drop)]
pub struct Numbered {
    pub number: u32,
    pub line: Line,
    /// The words of the line, with their shorthands spelled out.
    pub words: List<Octets>,
}

/// A site by its lines.
#[derive(Drop)]
pub struct SiteLines {
    /// The line that opens its block.
    pub line: u32,
    pub address: Address,
    /// What is in the block.
    pub lines: List<Numbered>,
}

/// A site whose block is open.
#[derive(Drop)]
pub struct OpenSite {
    pub line: u32,
    /// None where the words before the block are none.
    pub address: Option<Address>,
    pub lines: List<Numbered>,
    /// How many blocks in its own are open.
    pub levels: u32,
}

/// The sites of a file, of which there are few enough lines to be counted.
pub fn sites_of(alloc: Global, bytes: &[u8]) -> Result<List<SiteLines>, NoMemory>
    requires few { length bytes.now ≤ MAX_TEXT_BYTES }
    requires texts { All (λ line. IsUtf8 line) (lines_of bytes.now) }
    ensures sites { IfOk result (λ made. (tests_of : ℕ → List ℕ → Tests) → sites_in tests_of (file_lines bytes.now) ≡ map (site_made tests_of) made) }
    ensures whole { IfOk result (λ made. All IsWhole made) }
    ensures few { IfOk result (λ made. size_of made ≤ length bytes.now + 1) }
{
    let mut splitter = Splitter::new(alloc);
    let mut number = 1u32;
    let mut rest = bytes;
    'lines: loop {
        match split_at_byte(rest, b'\n') {
            None => {
                splitter.read(alloc, number, rest)?;
                return splitter.finish();
            }
            Some((line, after)) => {
                splitter.read(alloc, number, line)?;
                number += 1;
                rest = after;
            }
        }
    }
}

/// The sites that have been read.
#[derive(Drop)]
pub struct Splitter {
    pub sites: List<SiteLines>,
    pub current: Option<OpenSite>,
}

impl Splitter {
    fn new(alloc: Global) -> Splitter
        ensures sites { result.sites ≡ [] }
        ensures current { result.current ≡ None }
    {
        Splitter {
            sites: List::new(alloc),
            current: None,
        }
    }

    // Reads a line, with the CR at its end.
    #[tactic(auto, using(crate::proofs::TextSteps::read_texts))]
    fn read(&mut self, alloc: Global, number: u32, bytes: &[u8]) -> Result<(), NoMemory>
        requires split { IsSplit number self.old }
        requires text { IsUtf8 (without_return bytes.now) }
        ensures split { OnOk result (IsSplit (number + 1) self.new) }
        ensures sites { OnOk result ((tests_of : ℕ → List ℕ → Tests) (after : Nesting) →
            map (site_made tests_of) self.old.sites ++ sites_left tests_of self.old.current (preceded_by number (line_of (without_return bytes.now)) after)
            ≡ map (site_made tests_of) self.new.sites ++ sites_left tests_of self.new.current after) }
    {
        let read = read_line(alloc, without_return(bytes))?;
        self.take(alloc, number, read.line)
    }

    fn take(&mut self, alloc: Global, number: u32, line: Line) -> Result<(), NoMemory>
        requires split { IsSplit number self.old }
        requires texts { IsTextLine line }
        ensures split { OnOk result (IsSplit (number + 1) self.new) }
        ensures sites { OnOk result ((tests_of : ℕ → List ℕ → Tests) (after : Nesting) →
            map (site_made tests_of) self.old.sites ++ sites_left tests_of self.old.current (preceded_by number line after)
            ≡ map (site_made tests_of) self.new.sites ++ sites_left tests_of self.new.current after) }
    {
        match self.current.take() {
            None => {
                self.current = opened(alloc, number, line)?;
                Ok(())
            }
            Some(site) => self.take_inside(alloc, site, number, line),
        }
    }

    fn take_inside(
        &mut self,
        alloc: Global,
        site: OpenSite,
        number: u32,
        line: Line,
    ) -> Result<(), NoMemory>
        requires none { self.old.current ≡ None }
        requires open { IsSplit number (record self.old { current = Some site }) }
        requires texts { IsTextLine line }
        ensures split { OnOk result (IsSplit (number + 1) self.new) }
        ensures sites { OnOk result ((tests_of : ℕ → List ℕ → Tests) (after : Nesting) →
            map (site_made tests_of) self.old.sites ++ sites_left tests_of (Some site) (preceded_by number line after)
            ≡ map (site_made tests_of) self.new.sites ++ sites_left tests_of self.new.current after) }
    {
        if ends_site(&site, &line) {
            return add_site(&mut self.sites, site);
        }
        self.current = Some(with_line(alloc, site, number, line)?);
        Ok(())
    }

    fn finish(self) -> Result<List<SiteLines>, NoMemory>
        requires whole { All IsWhole self.sites }
        requires open { IsOpen self.current }
        ensures sites { IfOk result (λ made. (tests_of : ℕ → List ℕ → Tests) →
            map (site_made tests_of) self.sites ++ sites_left tests_of self.current (last end) ≡ map (site_made tests_of) made) }
        ensures whole { IfOk result (λ made. All IsWhole made) }
        ensures few { IfOk result (λ made. size_of made ≤ size_of self.sites + open_size self.current) }
    {
        let Splitter { mut sites, current } = self;
        match current {
            None => Ok(sites),
            Some(site) => {
                add_site(&mut sites, site)?;
                Ok(sites)
            }
        }
    }
}

// Whether a line is the last of a site.
fn ends_site(site: &OpenSite, line: &Line) -> bool
    ensures { result ≡ ((site.now.levels == 0) && closes line.now) }
{
    site.levels == 0 && closes(line)
}

// A site whose lines have all been read.
fn add_site(sites: &mut List<SiteLines>, site: OpenSite) -> Result<(), NoMemory>
    requires whole { All IsWhole sites.old }
    requires levels { closings (followed site.lines (last end)) ≡ 0 }
    requires texts { AreTextsOf site }
    ensures sites { OnOk result ((tests_of : ℕ → List ℕ → Tests) → map (site_made tests_of) sites.old ++ sites_left tests_of (Some site) (last end) ≡ map (site_made tests_of) sites.new) }
    ensures whole { OnOk result (All IsWhole sites.new) }
    ensures few { OnOk result (size_of sites.new ≤ size_of sites.old + 1 + length site.lines) }
{
    let OpenSite {
        line,
        address,
        lines,
        levels: _,
    } = site;
    match address {
        None => Ok(()),
        Some(address) => sites.push(SiteLines {
            line,
            address,
            lines,
        }),
    }
}

// The site that a line outside of all sites opens, if it does.
fn opened(alloc: Global, number: u32, line: Line) -> Result<Option<OpenSite>, NoMemory>
    requires { IsTextLine line }
    ensures open { IfOk result (λ made. IsOpen made) }
    ensures few { IfOk result (λ made. open_size made ≤ 1) }
    ensures sites { IfOk result (λ made. (tests_of : ℕ → List ℕ → Tests) (after : Nesting) →
        sites_left tests_of None (preceded_by number line after) ≡ sites_left tests_of made after) }
{
    match line {
        Line::Empty => Ok(None),
        Line::Closes => Ok(None),
        Line::Opens(words) => {
            let address = address_of(alloc, words.as_slice())?;
            Ok(Some(OpenSite {
                line: number,
                address,
                lines: List::new(alloc),
                levels: 0,
            }))
        }
        Line::Says(_) => Ok(None),
        Line::Misplaced => Ok(None),
    }
}

fn closes(line: &Line) -> bool
    ensures { result ≡ closes line.now }
{
    match line {
        Line::Empty => false,
        Line::Closes => true,
        Line::Opens(_) => false,
        Line::Says(_) => false,
        Line::Misplaced => false,
    }
}

// A line in the block of a site, which goes on.
fn with_line(alloc: Global, site: OpenSite, number: u32, line: Line) -> Result<OpenSite, NoMemory>
    requires { site.levels < number }
    ensures { IfOk result (λ made. made ≡ record site { lines = site.lines ++ numbered number line ∷ []; levels = levels_after line site.levels }) }
{
    let words = words_spelled(alloc, &line)?;
    let OpenSite {
        line: opening,
        address,
        mut lines,
        levels,
    } = site;
    let levels = levels_after(&line, levels);
    lines.push(Numbered {
        number,
        line,
        words,
    })?;
    Ok(OpenSite {
        line: opening,
        address,
        lines,
        levels,
    })
}

// The words of a line, with their shorthands spelled out.
fn words_spelled(alloc: Global, line: &Line) -> Result<List<Octets>, NoMemory>
    ensures { IfOk result (λ made. made ≡ words_spelled line.now) }
{
    match line {
        Line::Empty => Ok(List::new(alloc)),
        Line::Closes => Ok(List::new(alloc)),
        Line::Opens(words) => all_spelled(alloc, words.as_slice()),
        Line::Says(words) => all_spelled(alloc, words.as_slice()),
        Line::Misplaced => Ok(List::new(alloc)),
    }
}

fn all_spelled(alloc: Global, words: &[Octets]) -> Result<List<Octets>, NoMemory>
    ensures { IfOk result (λ made. made ≡ map spelled words.now) }
{
    let mut made = List::new(alloc);
    for word in words {
        made.push(spelled(alloc, word.as_slice())?)?;
    }
    Ok(made)
}

fn levels_after(line: &Line, levels: u32) -> u32
    requires { levels < 2 ^ 32 - 1 }
    ensures { result ≡ levels_after line.now levels }
{
    match line {
        Line::Empty => levels,
        Line::Closes => levels.saturating_sub(1),
        Line::Opens(_) => levels + 1,
        Line::Says(_) => levels,
        Line::Misplaced => levels,
    }
}
