//! What the lines of a file say that is compared with other lines, and their first fault.
ghost use Rattle.std.specs.Prelude.{◌≡◌, ◌++◌, ◌∷◌, [], OnOk, IfOk};
ghost use Rattle.cd_caddyfile.specs.Faults.{is_sooner, precedence, sooner, first_fault, faults_of, fault_where, wrongs, sites_said, defined, defined_in, used, used_in, used_by, used_by_choice, is_by_name};
ghost use Rattle.cd_caddyfile.specs.FileSites.{tested, tested_in, test_line};
ghost use Rattle.cd_caddyfile.specs.declared.within.Within.TheVariants as place_of;

use crate::address::address_of;
use crate::choice::{Choice, choice_of};
use crate::directive::{Directive, is_matcher};
use crate::fault::{CaddyfileFault, CaddyfileKind};
use crate::named::{Located, Named, TestLine};
use crate::within::Within;
use crate::wrong::{wrong_site, wrong_statement, wrong_test};
use cd_text::{List, NoMemory, Octets};
use std::alloc::Global;

/// What lines say.
#[derive(Drop)]
pub struct Notes {
    /// The first fault of a line by where it is.
    pub fault: Option<CaddyfileFault>,
    pub sites: List<Located>,
    /// The matchers that are defined.
    pub defined: List<Named>,
    /// The names of matchers that directives take.
    pub used: List<Named>,
    /// The tests of matchers.
    pub tested: List<TestLine>,
}

impl Notes {
    /// Notes what a line says: where it is, whether it opens a block, its number and its words.
    pub fn note(
        &mut self,
        alloc: Global,
        at: Within,
        opens: bool,
        number: u32,
        words: &[Octets],
    ) -> Result<(), NoMemory>
        ensures fault { OnOk result (self.new.fault ≡ sooner self.old.fault (first_fault (wrongs at opens number words.now))) }
        ensures sites { OnOk result (self.new.sites ≡ self.old.sites ++ sites_said at opens number words.now) }
        ensures defined { OnOk result (self.new.defined ≡ self.old.defined ++ defined at opens number words.now) }
        ensures used { OnOk result (self.new.used ≡ self.old.used ++ used at opens number words.now) }
        ensures tested { OnOk result (self.new.tested ≡ self.old.tested ++ tested at opens number words.now) }
    {
        match at {
            Within::File => self.note_site(alloc, opens, number, words),
            Within::Directives(site) => self.note_statement(alloc, site, opens, number, words),
            Within::Tests(_, matcher) => {
                self.blame(number, wrong_test(opens, words));
                self.note_test(alloc, matcher, words)
            }
            Within::Unread(site) => self.note_defined(alloc, site, number, words),
        }
    }

    fn note_site(
        &mut self,
        alloc: Global,
        opens: bool,
        number: u32,
        words: &[Octets],
    ) -> Result<(), NoMemory>
        ensures fault { OnOk result (self.new.fault ≡ sooner self.old.fault (first_fault (wrongs place_of.File opens number words.now))) }
        ensures sites { OnOk result (self.new.sites ≡ self.old.sites ++ sites_said place_of.File opens number words.now) }
        ensures defined { self.new.defined ≡ self.old.defined }
        ensures used { self.new.used ≡ self.old.used }
        ensures tested { self.new.tested ≡ self.old.tested }
    {
        match address_of(alloc, words)? {
            None => {
                self.blame(number, wrong_site(opens, false));
                Ok(())
            }
            Some(address) => {
                self.blame(number, wrong_site(opens, true));
                self.sites.push(Located {
                    line: number,
                    address,
                })
            }
        }
    }

    fn note_statement(
        &mut self,
        alloc: Global,
        site: u32,
        opens: bool,
        number: u32,
        words: &[Octets],
    ) -> Result<(), NoMemory>
        ensures fault { self.new.fault ≡ sooner self.old.fault (first_fault (wrongs (place_of.Directives site) opens number words.now)) }
        ensures sites { self.new.sites ≡ self.old.sites }
        ensures defined { OnOk result (self.new.defined ≡ self.old.defined ++ defined_in site number words.now) }
        ensures used { OnOk result (self.new.used ≡ self.old.used ++ used_in site number words.now) }
        ensures tested { OnOk result (self.new.tested ≡ self.old.tested ++ tested (place_of.Directives site) opens number words.now) }
    {
        self.blame(number, wrong_statement(opens, words));
        self.note_defined(alloc, site, number, words)?;
        self.note_used(alloc, site, number, words)?;
        if opens {
            return Ok(());
        }
        self.note_test_in(alloc, number, words)
    }

    // A matcher whose test is in its line.
    fn note_test_in(&mut self, alloc: Global, number: u32, words: &[Octets]) -> Result<(), NoMemory>
        ensures fault { self.new.fault ≡ self.old.fault }
        ensures sites { self.new.sites ≡ self.old.sites }
        ensures defined { self.new.defined ≡ self.old.defined }
        ensures used { self.new.used ≡ self.old.used }
        ensures tested { OnOk result (self.new.tested ≡ self.old.tested ++ tested_in number words.now) }
    {
        match words {
            [] => Ok(()),
            [name, args @ ..] => {
                if !is_matcher(name.as_slice()) {
                    return Ok(());
                }
                self.note_test(alloc, number, args)
            }
        }
    }

    fn note_test(&mut self, alloc: Global, matcher: u32, words: &[Octets]) -> Result<(), NoMemory>
        ensures fault { self.new.fault ≡ self.old.fault }
        ensures sites { self.new.sites ≡ self.old.sites }
        ensures defined { self.new.defined ≡ self.old.defined }
        ensures used { self.new.used ≡ self.old.used }
        ensures tested { OnOk result (self.new.tested ≡ self.old.tested ++ test_line matcher words.now ∷ []) }
    {
        let words = copies(alloc, words)?;
        self.tested.push(TestLine { matcher, words })
    }

    fn note_defined(
        &mut self,
        alloc: Global,
        site: u32,
        number: u32,
        words: &[Octets],
    ) -> Result<(), NoMemory>
        ensures fault { self.new.fault ≡ self.old.fault }
        ensures sites { self.new.sites ≡ self.old.sites }
        ensures defined { OnOk result (self.new.defined ≡ self.old.defined ++ defined_in site number words.now) }
        ensures used { self.new.used ≡ self.old.used }
        ensures tested { self.new.tested ≡ self.old.tested }
    {
        match words {
            [] => Ok(()),
            [name, ..] => {
                if !is_matcher(name.as_slice()) {
                    return Ok(());
                }
                let name = name.copy(alloc)?;
                self.defined.push(Named {
                    site,
                    line: number,
                    name,
                })
            }
        }
    }

    fn note_used(
        &mut self,
        alloc: Global,
        site: u32,
        number: u32,
        words: &[Octets],
    ) -> Result<(), NoMemory>
        ensures fault { self.new.fault ≡ self.old.fault }
        ensures sites { self.new.sites ≡ self.old.sites }
        ensures defined { self.new.defined ≡ self.old.defined }
        ensures used { OnOk result (self.new.used ≡ self.old.used ++ used_in site number words.now) }
        ensures tested { self.new.tested ≡ self.old.tested }
    {
        match words {
            [] => Ok(()),
            [name, args @ ..] => match Directive::named(name.as_slice()) {
                None => Ok(()),
                Some(directive) => self.note_choice(alloc, site, number, directive, args),
            },
        }
    }

    fn note_choice(
        &mut self,
        alloc: Global,
        site: u32,
        number: u32,
        directive: Directive,
        args: &[Octets],
    ) -> Result<(), NoMemory>
        ensures fault { self.new.fault ≡ self.old.fault }
        ensures sites { self.new.sites ≡ self.old.sites }
        ensures defined { self.new.defined ≡ self.old.defined }
        ensures used { OnOk result (self.new.used ≡ self.old.used ++ used_by site number (Some directive) args.now) }
        ensures tested { self.new.tested ≡ self.old.tested }
    {
        match args {
            [] => Ok(()),
            [first, ..] => {
                if !is_by_name(choice_of(directive, args)) {
                    return Ok(());
                }
                let name = first.copy(alloc)?;
                self.used.push(Named {
                    site,
                    line: number,
                    name,
                })
            }
        }
    }

    /// A fault of a line, where there is one.
    pub fn blame(&mut self, number: u32, kind: Option<CaddyfileKind>)
        ensures fault { self.new.fault ≡ sooner self.old.fault (first_fault (faults_of number kind)) }
        ensures sites { self.new.sites ≡ self.old.sites }
        ensures defined { self.new.defined ≡ self.old.defined }
        ensures used { self.new.used ≡ self.old.used }
        ensures tested { self.new.tested ≡ self.old.tested }
    {
        self.fault = sooner(self.fault, fault_at(number, kind));
    }
}

fn copies(alloc: Global, words: &[Octets]) -> Result<List<Octets>, NoMemory>
    ensures { IfOk result (λ made. made ≡ words.now) }
{
    let mut made = List::new(alloc);
    for word in words {
        made.push(word.copy(alloc)?)?;
    }
    Ok(made)
}

fn is_by_name(choice: Choice) -> bool
    ensures { result ≡ is_by_name choice }
{
    match choice {
        Choice::Unmatched => false,
        Choice::Everything => false,
        Choice::ByPath => false,
        Choice::ByName => true,
    }
}

// A fault of a line, where there is one.
fn fault_at(number: u32, kind: Option<CaddyfileKind>) -> Option<CaddyfileFault>
    ensures { result ≡ first_fault (faults_of number kind) }
{
    match kind {
        None => None,
        Some(kind) => Some(CaddyfileFault { kind, line: number }),
    }
}

/// A fault of a line, where the test holds.
pub fn fault_where(test: bool, number: u32, kind: CaddyfileKind) -> Option<CaddyfileFault>
    ensures { result ≡ first_fault (fault_where test number kind) }
{
    if test {
        Some(CaddyfileFault { kind, line: number })
    } else {
        None
    }
}

/// The sooner of two faults: that of the earlier line, and of one line that of the kind that comes first.
pub fn sooner(one: Option<CaddyfileFault>, other: Option<CaddyfileFault>) -> Option<CaddyfileFault>
    ensures { result ≡ sooner one other }
{
    match (one, other) {
        (None, _) => other,
        (Some(_), None) => one,
        (Some(first), Some(second)) => {
            if is_sooner(&first, &second) {
                one
            } else {
                other
            }
        }
    }
}

fn is_sooner(one: &CaddyfileFault, other: &CaddyfileFault) -> bool
    ensures { result ≡ is_sooner one.now other.now }
{
    one.line < other.line
        || (one.line == other.line && precedence(one.kind) <= precedence(other.kind))
}

// Which of the faults of one line counts: the least.
fn precedence(kind: CaddyfileKind) -> u8
    ensures { result ≡ precedence kind }
{
    match kind {
        CaddyfileKind::BadText => 1,
        CaddyfileKind::BadBlock => 2,
        CaddyfileKind::BadAddress => 3,
        CaddyfileKind::RepeatedSite => 4,
        CaddyfileKind::UnknownDirective => 5,
        CaddyfileKind::BadArguments => 6,
        CaddyfileKind::UnknownMatcher => 7,
        CaddyfileKind::RepeatedMatcher => 8,
        CaddyfileKind::TooLong => 9,
        CaddyfileKind::TooDeep => 10,
        CaddyfileKind::NoMemory => 11,
    }
}
