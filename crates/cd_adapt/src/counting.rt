//! How many groups the routes of a site need. They are counted before the routes are made, since those of a block have the first
//! numbers, and a block is read from its last line to its first.
ghost use Rattle.std.specs.Prelude.{◌≡◌, ◌≤◌, ◌<◌, ◌+◌, ◌-◌, ◌^◌, ℕ, List, [], ◌∷◌, ◌++◌, length, map, IfOk, OnOk};
ghost use Rattle.cd_caddyfile.specs.Blocks.{Nesting, last, end, preceded_by, opened};
ghost use Rattle.cd_caddyfile.specs.FileSites.{block_of};
ghost use Rattle.cd_caddyfile.specs.Shape.{groups_of};
ghost use Rattle.cd_caddyfile.specs.Shorthands.{spelled};
ghost use Rattle.cd_caddyfile.specs.Sites.{Tests};
ghost use Rattle.cd_adapt.specs.Counting.{no_needs, weight, size, is_rewriting, is_rewrite, and_words, and_inside, IsCounted};
ghost use Rattle.cd_adapt.specs.Laying.{is_handle, IsTaken};
ghost use Rattle.cd_adapt.specs.Splitting.{lines_made, followed, closings, words_spelled, AreReadLines};

use crate::laying::is_handle;
use crate::splitting::Numbered;
use cd_caddyfile::{Directive, Line, own_args};
use cd_text::{List, NoMemory, Octets};
use std::alloc::Global;
use std::mem::replace;

/// Which groups the routes of a block need.
#[derive(Clone, Copy)]
pub struct Needs {
    pub rewrites: bool,
    pub handles: bool,
    /// How many those of the blocks inside need.
    pub inside: u64,
}

impl Needs {
    fn none() -> Needs
        ensures { result ≡ no_needs }
    {
        Needs {
            rewrites: false,
            handles: false,
            inside: 0,
        }
    }

    // How many groups these are.
    fn count(&self) -> u64
        requires { weight self.now < 2 ^ 64 }
        ensures { result ≡ weight self.now }
    {
        u64::from(self.rewrites) + u64::from(self.handles) + self.inside
    }
}

/// How many groups the routes of a site need.
pub fn count_groups(alloc: Global, lines: &[Numbered]) -> Result<u64, NoMemory>
    requires closed { closings (followed lines.now (last end)) ≡ 0 }
    requires read { AreReadLines lines.now }
    ensures groups { IfOk result (λ count. (tests_of : List ℕ → Tests) → count ≡ groups_of (block_of tests_of (lines_made lines.now))) }
    ensures few { IfOk result (λ count. count ≤ length lines.now) }
{
    let mut counter = Counter {
        open: List::new(alloc),
        here: Needs::none(),
    };
    let mut left = lines.len();
    'lines: while left > 0 {
        left -= 1;
        counter.take(&lines[left])?;
    }
    Ok(counter.here.count())
}

/// The blocks that have been read of which the first line has not.
#[derive(Drop)]
pub struct Counter {
    /// Those around the innermost, from the outermost one.
    pub open: List<Needs>,
    /// The innermost.
    pub here: Needs,
}

impl Counter {
    // Reads the line before those that have been read.
    fn take(&mut self, line: &Numbered) -> Result<(), NoMemory>
        requires size { size self.old < 2 ^ 64 - 1 }
        requires words { line.now.words ≡ words_spelled line.now.line }
        ensures size { OnOk result (size self.new ≤ size self.old + 1) }
        ensures counted { OnOk result ((tests_of : List ℕ → Tests) (n : ℕ) (after : Nesting) → IsCounted tests_of after self.old → IsCounted tests_of (preceded_by n line.now.line after) self.new) }
    {
        match &line.line {
            Line::Empty => Ok(()),
            Line::Closes => self.close(),
            Line::Opens(_) => {
                self.open(line.words.as_slice());
                Ok(())
            }
            Line::Says(_) => {
                self.say(line.words.as_slice());
                Ok(())
            }
            Line::Misplaced => Ok(()),
        }
    }

    // The last line of a block.
    fn close(&mut self) -> Result<(), NoMemory>
        ensures open { OnOk result (self.new.open ≡ self.old.open ++ self.old.here ∷ []) }
        ensures here { self.new.here ≡ no_needs }
    {
        let outer = replace(&mut self.here, Needs::none());
        self.open.push(outer)
    }

    // A line without a block, by its words as they are spelled out.
    fn say(&mut self, words: &[Octets])
        ensures here { self.new.here ≡ and_words words.now self.old.here }
        ensures open { self.new.open ≡ self.old.open }
    {
        if is_rewrite(words) {
            self.here.rewrites = true;
        }
    }

    // The first line of a block, likewise.
    fn open(&mut self, words: &[Octets])
        requires { size self.old < 2 ^ 64 - 1 }
        ensures size { size self.new ≤ size self.old + 1 }
        ensures counted { (tests_of : List ℕ → Tests) (n : ℕ) (said : List (List ℕ)) (after : Nesting) → words.now ≡ map spelled said → IsCounted tests_of after self.old → IsCounted tests_of (opened n said after) self.new }
    {
        let inside = self.here;
        let after = self.take_after();
        self.here = and_inside(is_handle(words), inside, after);
    }

    // Takes the needs of the lines after the innermost block, which are none where the block is left open.
    fn take_after(&mut self) -> Needs
        ensures taken { IsTaken no_needs self.old.open self.new.open result }
        ensures here { self.new.here ≡ self.old.here }
    {
        match self.open.pop() {
            Some(needs) => needs,
            None => Needs::none(),
        }
    }
}

// The needs of lines with a block before them, where it is that of a `handle` or not.
fn and_inside(is_handle: bool, inside: Needs, after: Needs) -> Needs
    requires { weight inside + weight after < 2 ^ 64 }
    ensures { result ≡ and_inside is_handle inside after }
{
    if !is_handle {
        return after;
    }
    Needs {
        rewrites: after.rewrites,
        handles: true,
        inside: inside.count() + after.inside,
    }
}

// Whether a line is a `rewrite` with its argument.
fn is_rewrite(words: &[Octets]) -> bool
    ensures { result ≡ is_rewrite words.now }
{
    match words {
        [] => false,
        [name, args @ ..] => match Directive::named(name.as_slice()) {
            None => false,
            Some(directive) => is_rewriting(directive, args),
        },
    }
}

fn is_rewriting(directive: Directive, args: &[Octets]) -> bool
    ensures { result ≡ is_rewriting directive args.now }
{
    match directive {
        Directive::Vars => false,
        Directive::Header => false,
        Directive::Redir => false,
        Directive::Rewrite => own_args(directive, args).len() == 1,
        Directive::Handle => false,
        Directive::Respond => false,
    }
}
