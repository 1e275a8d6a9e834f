//! The routes of a site, from its last line to its first: a block is read before the line that opens it, so its groups are known
//! where it is made, and however deep blocks nest, nothing recurses.
ghost use Rattle.std.specs.Prelude.{◌≡◌, ◌+◌, ◌-◌, ℕ, List, [], ◌∷◌, ◌++◌, map, IfOk, OnOk, true, Some};
ghost use Rattle.cd_caddyfile.specs.Blocks.{Nesting, preceded_by, opened};
ghost use Rattle.cd_caddyfile.specs.FileSites.{block_of};
ghost use Rattle.cd_caddyfile.specs.Shape.{routes_of, groups_of};
ghost use Rattle.cd_caddyfile.specs.Shorthands.{spelled};
ghost use Rattle.cd_caddyfile.specs.Sites.{Tests};
ghost use Rattle.cd_adapt.specs.Laying.{AreLaid, IsTaken, is_handle, arguments, free_before, routes_at, and_block};
ghost use Rattle.cd_parts.specs.Matching.{set_named, Agrees};
ghost use Rattle.cd_parts.specs.Measures.{measured};
ghost use Rattle.cd_adapt.specs.Splitting.{lines_made, IsReadLine, IsWhole};
ghost use Rattle.cd_parts.specs.Texts.{AreTexts};
ghost use Rattle.cd_adapt.specs.Steps.{and_directive, and_statement, no_steps, own_groups};

use crate::splitting::{Numbered, SiteLines};
use crate::steps::{Frame, Step, has_some, subroute_of};
use cd_caddyfile::{Directive, Line, own_args};
use cd_parts::{Measured, SetTable, handler, measure, set_by};
use cd_text::{List, NoMemory, Octets};
use std::alloc::Global;
use std::mem::replace;

/// The routes of a site, where the number after the last of their groups is `next`.
pub fn routes_of(
    alloc: Global,
    table: &SetTable,
    site: &SiteLines,
    next: u64,
) -> Result<List<Measured>, NoMemory>
    requires { IsWhole site.now }
    ensures { IfOk result (λ made. (tests_of : List ℕ → Tests) (first : ℕ) → Agrees (set_named table.now site.now.line) tests_of →
        first + groups_of (block_of tests_of (lines_made site.now.lines)) ≡ next → made ≡ map measured (routes_of (block_of tests_of (lines_made site.now.lines)) first)) }
{
    let mut layout = Layout::new(alloc, next);
    let lines = site.lines.as_slice();
    let mut left = lines.len();
    'lines: while left > 0 {
        left -= 1;
        layout.take(alloc, table, site.line, &lines[left])?;
    }
    let Layout {
        outer: _,
        here,
        free,
    } = layout;
    routes_at(alloc, here, free)
}

/// The blocks that have been read of which the first line has not.
#[derive(Drop)]
pub struct Layout {
    /// Those around the innermost, from the outermost one.
    pub outer: List<Frame>,
    /// The innermost.
    pub here: Frame,
    /// The first number of a group that is taken.
    pub free: u64,
}

impl Layout {
    fn new(alloc: Global, next: u64) -> Layout
        ensures outer { result.outer ≡ [] }
        ensures here { result.here ≡ no_steps next }
        ensures free { result.free ≡ next }
    {
        Layout {
            outer: List::new(alloc),
            here: Frame::new(alloc, next),
            free: next,
        }
    }

    // Reads the line before those that have been read.
    fn take(
        &mut self,
        alloc: Global,
        table: &SetTable,
        site: u32,
        line: &Numbered,
    ) -> Result<(), NoMemory>
        requires { IsReadLine line.now }
        ensures { OnOk result ((tests_of : List ℕ → Tests) (next : ℕ) (after : Nesting) → Agrees (set_named table.now site) tests_of →
            AreLaid tests_of next after self.old.outer self.old.here self.old.free →
            AreLaid tests_of next (preceded_by line.now.number line.now.line after) self.new.outer self.new.here self.new.free) }
    {
        match &line.line {
            Line::Empty => Ok(()),
            Line::Closes => self.close(alloc),
            Line::Opens(_) => self.open(alloc, table, site, line.words.as_slice()),
            Line::Says(_) => self.say(alloc, table, site, line.words.as_slice()),
            Line::Misplaced => Ok(()),
        }
    }

    // The last line of a block.
    fn close(&mut self, alloc: Global) -> Result<(), NoMemory>
        ensures outer { OnOk result (self.new.outer ≡ self.old.outer ++ self.old.here ∷ []) }
        ensures here { self.new.here ≡ no_steps self.old.free }
        ensures free { self.new.free ≡ self.old.free }
    {
        let outer = replace(&mut self.here, Frame::new(alloc, self.free));
        self.outer.push(outer)
    }

    // A line without a block, by its words as they are spelled out.
    fn say(
        &mut self,
        alloc: Global,
        table: &SetTable,
        site: u32,
        words: &[Octets],
    ) -> Result<(), NoMemory>
        requires { AreTexts words.now }
        ensures here { OnOk result (self.new.here ≡ and_statement (set_named table.now site) words.now self.old.here) }
        ensures outer { self.new.outer ≡ self.old.outer }
        ensures free { self.new.free ≡ self.old.free }
    {
        add_statement(alloc, table, site, &mut self.here, words)
    }

    // The first line of a block, likewise.
    fn open(
        &mut self,
        alloc: Global,
        table: &SetTable,
        site: u32,
        words: &[Octets],
    ) -> Result<(), NoMemory>
        requires { AreTexts words.now }
        ensures { OnOk result ((tests_of : List ℕ → Tests) (next n : ℕ) (said : List (List ℕ)) (after : Nesting) → words.now ≡ map spelled said → Agrees (set_named table.now site) tests_of →
            AreLaid tests_of next after self.old.outer self.old.here self.old.free →
            AreLaid tests_of next (opened n said after) self.new.outer self.new.here self.new.free) }
    {
        let after = self.take_after(alloc);
        let inside = replace(&mut self.here, after);
        let free = add_block(alloc, table, site, words, inside, &mut self.here, self.free)?;
        self.free = free;
        Ok(())
    }

    // Takes the frame of the lines after the innermost block, which are none where the block is left open.
    fn take_after(&mut self, alloc: Global) -> Frame
        ensures taken { IsTaken (no_steps self.old.here.end) self.old.outer self.new.outer result }
        ensures here { self.new.here ≡ self.old.here }
        ensures free { self.new.free ≡ self.old.free }
    {
        match self.outer.pop() {
            Some(frame) => frame,
            None => Frame::new(alloc, self.here.end),
        }
    }
}

/// Whether a line that opens a block is a `handle`.
pub fn is_handle(words: &[Octets]) -> bool
    ensures { result ≡ is_handle words.now }
{
    match words {
        [] => false,
        [name, ..] => name.equals(b"handle"),
    }
}

// A line without a block.
#[tactic(auto, using(crate::proofs::TextSteps::other_texts))]
fn add_statement(
    alloc: Global,
    table: &SetTable,
    site: u32,
    frame: &mut Frame,
    words: &[Octets],
) -> Result<(), NoMemory>
    requires { AreTexts words.now }
    ensures { OnOk result (frame.new ≡ and_statement (set_named table.now site) words.now frame.old) }
{
    match words {
        [] => Ok(()),
        [name, args @ ..] => match Directive::named(name.as_slice()) {
            None => Ok(()),
            Some(directive) => add_directive(alloc, table, site, frame, directive, args),
        },
    }
}

fn add_directive(
    alloc: Global,
    table: &SetTable,
    site: u32,
    frame: &mut Frame,
    directive: Directive,
    args: &[Octets],
) -> Result<(), NoMemory>
    requires { AreTexts args.now }
    ensures { OnOk result (frame.new ≡ and_directive (set_named table.now site) (Some directive) args.now frame.old) }
{
    match handler(alloc, directive, own_args(directive, args))? {
        None => Ok(()),
        Some(does) => {
            let matching = set_by(alloc, table, site, directive, args)?;
            let does = measure(does);
            frame.add(directive, Step { matching, does })
        }
    }
}

// A line with a block, of which the first number of a group that is taken then is the answer.
#[tactic(auto, using(crate::proofs::TextSteps::other_texts))]
fn add_block(
    alloc: Global,
    table: &SetTable,
    site: u32,
    words: &[Octets],
    inside: Frame,
    after: &mut Frame,
    free: u64,
) -> Result<u64, NoMemory>
    requires { AreTexts words.now }
    ensures after { OnOk result (after.new ≡ and_block (is_handle words.now) (set_named table.now site) (arguments words.now) inside free after.old) }
    ensures free { IfOk result (λ first. first ≡ free_before (is_handle words.now) inside free) }
{
    match words {
        [] => Ok(inside.end),
        [name, args @ ..] => {
            if name.equals(b"handle") {
                add_handle(alloc, table, site, args, inside, after, free)
            } else {
                Ok(inside.end)
            }
        }
    }
}

fn add_handle(
    alloc: Global,
    table: &SetTable,
    site: u32,
    args: &[Octets],
    inside: Frame,
    after: &mut Frame,
    free: u64,
) -> Result<u64, NoMemory>
    requires { AreTexts args.now }
    ensures after { OnOk result (after.new ≡ and_block true (set_named table.now site) args.now inside free after.old) }
    ensures free { IfOk result (λ first. first ≡ free_before true inside free) }
{
    let first = first_group(&inside, free);
    let routes = routes_at(alloc, inside, free)?;
    let does = subroute_of(alloc, routes)?;
    let matching = set_by(alloc, table, site, Directive::Handle, args)?;
    after.add(Directive::Handle, Step { matching, does })?;
    Ok(first)
}

// The number of the first group of a block, where that after its own groups is known.
fn first_group(frame: &Frame, free: u64) -> u64
    ensures { result ≡ free - own_groups frame.now }
{
    free.saturating_sub(frame.own_groups())
}

fn routes_at(alloc: Global, frame: Frame, free: u64) -> Result<List<Measured>, NoMemory>
    ensures { IfOk result (λ made. made ≡ routes_at frame free) }
{
    let rewriting = first_group(&frame, free);
    let handling = free.saturating_sub(u64::from(has_some(&frame.handles)));
    frame.into_routes(alloc, rewriting, handling)
}
