//! Reads lines one after another.
ghost use Rattle.std.specs.Prelude.{◌≡◌, map, reverse, IfOk, OnOk};
ghost use Rattle.cd_caddyfile.specs.Blocks.{Nesting, preceded_by, opened, in_front, end, up_to};
ghost use Rattle.cd_caddyfile.specs.Going.{Goes};
ghost use Rattle.cd_caddyfile.specs.Left.{innermost};
ghost use Rattle.cd_caddyfile.specs.Shorthands.{spelled};
ghost use Rattle.cd_caddyfile.specs.Walk.{words_in, inside, inside_of, inside_matcher, inside_directive};

use crate::directive::{Directive, is_matcher};
use crate::fault::CaddyfileKind;
use crate::line::Line;
use crate::notes::Notes;
use crate::shorthands::spelled;
use crate::within::Within;
use cd_text::{List, NoMemory, Octets};
use std::alloc::Global;

/// A block that is open.
#[derive(Clone, Copy)]
pub struct OpenBlock {
    /// The line that opens it.
    pub line: u32,
    /// What its lines are in.
    pub inside: Within,
}

/// What has been read of a file.
#[derive(Drop)]
pub struct Reader {
    pub notes: Notes,
    /// The open blocks, from the outermost one.
    pub blocks: List<OpenBlock>,
}

impl Reader {
    /// Reads a line.
    pub fn take(&mut self, alloc: Global, number: u32, line: Line) -> Result<(), NoMemory>
        ensures { OnOk result ((after : Nesting) → Goes self.old self.new (preceded_by number line after) after) }
    {
        match line {
            Line::Empty => Ok(()),
            Line::Closes => {
                self.close(number);
                Ok(())
            }
            Line::Opens(words) => self.open_block(alloc, number, words),
            Line::Says(words) => self.say(alloc, number, words),
            Line::Misplaced => Ok(()),
        }
    }

    fn say(&mut self, alloc: Global, number: u32, words: List<Octets>) -> Result<(), NoMemory>
        ensures { OnOk result ((after : Nesting) → Goes self.old self.new (in_front number words after) after) }
    {
        let at = self.innermost();
        let words = words_in(alloc, at, words)?;
        self.notes.note(alloc, at, false, number, words.as_slice())
    }

    fn open_block(
        &mut self,
        alloc: Global,
        number: u32,
        words: List<Octets>,
    ) -> Result<(), NoMemory>
        ensures { OnOk result ((after : Nesting) → Goes self.old self.new (opened number words after) after) }
    {
        let at = self.innermost();
        let words = words_in(alloc, at, words)?;
        self.notes.note(alloc, at, true, number, words.as_slice())?;
        let inside = inside(at, number, words.as_slice());
        self.blocks.push(OpenBlock {
            line: number,
            inside,
        })
    }

    // A line that closes nothing is wrong, as any line without a block is that is in none.
    fn close(&mut self, number: u32)
        ensures { (after : Nesting) → Goes self.old self.new (up_to end number after) after }
    {
        match self.blocks.pop() {
            Some(_) => (),
            None => self.notes.blame(number, Some(CaddyfileKind::BadBlock)),
        }
    }

    fn innermost(&self) -> Within
        ensures { result ≡ innermost (reverse self.now.blocks) }
    {
        match self.blocks.as_slice() {
            [] => Within::File,
            [.., last] => last.inside,
        }
    }
}

// Shorthands are read in each word of a site.
fn words_in(alloc: Global, at: Within, words: List<Octets>) -> Result<List<Octets>, NoMemory>
    ensures { IfOk result (λ read. read ≡ words_in at words) }
{
    match at {
        Within::File => Ok(words),
        Within::Directives(_) => all_spelled(alloc, words.as_slice()),
        Within::Tests(_, _) => all_spelled(alloc, words.as_slice()),
        Within::Unread(_) => all_spelled(alloc, words.as_slice()),
    }
}

fn all_spelled(alloc: Global, words: &[Octets]) -> Result<List<Octets>, NoMemory>
    ensures { IfOk result (λ made. made ≡ map spelled words.now) }
{
    let mut made = List::new(alloc);
    for word in words {
        made.push(spelled(alloc, word.as_slice())?)?;
    }
    Ok(made)
}

/// What the block of a line is, with that number and those words.
pub fn inside(at: Within, number: u32, words: &[Octets]) -> Within
    ensures { result ≡ inside at number words.now }
{
    match at {
        Within::File => Within::Directives(number),
        Within::Directives(site) => inside_of(site, number, words),
        Within::Tests(site, _) => Within::Unread(site),
        Within::Unread(site) => Within::Unread(site),
    }
}

fn inside_of(site: u32, number: u32, words: &[Octets]) -> Within
    ensures { result ≡ inside_of site number words.now }
{
    match words {
        [] => Within::Unread(site),
        [name, args @ ..] => {
            if is_matcher(name.as_slice()) {
                return inside_matcher(site, number, args);
            }
            inside_directive(site, Directive::named(name.as_slice()))
        }
    }
}

fn inside_matcher(site: u32, number: u32, args: &[Octets]) -> Within
    ensures { result ≡ inside_matcher site number args.now }
{
    match args {
        [] => Within::Tests(site, number),
        _ => Within::Unread(site),
    }
}

fn inside_directive(site: u32, directive: Option<Directive>) -> Within
    ensures { result ≡ inside_directive site directive }
{
    match directive {
        Some(Directive::Handle) => Within::Directives(site),
        _ => Within::Unread(site),
    }
}
