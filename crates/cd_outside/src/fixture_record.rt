ghost use Rattle.std.specs.Prelude.{◌≡◌, ◌<◌, ◌≤◌, ◌+◌, ◌++◌, ◌∷◌, [], true, false, length, OnOk, OnErr, IfOk, IfNone, OnSome, Some, slice_get, remove, vec_len, MatchOption};
ghost use Rattle.std.specs.Vec.{vec_capacity};
ghost use Rattle.cd_outside.specs.declared.fixtures.FixtureCall.TheVariants as call;
ghost use Rattle.cd_outside.specs.Keys.{has_key};
ghost use Rattle.cd_outside.specs.FixtureCall.{open_keys, without_key, was_shut};
ghost use Rattle.cd_outside.specs.FixtureRecord.{Adds};

use crate::{FixtureCall, Key};
use cd_text::{List, NoMemory};
use std::alloc::Global;
use std::marker::Model;

/// The calls of fixtures, as far as they could be recorded.
///
/// The memory for the closing of each key that is open, and for the first shutting, is taken beforehand, as places of one
/// vector. No closing and no shutting takes any: one for which there is none, as of a key that is not open, is not recorded,
/// nor is any call after it.
#[derive(Debug, Drop)]
pub struct FixtureRecord {
    alloc: Global,
    // with a place for the closing of each key that is open, and for the first shutting
    calls: Vec<FixtureCall>,
    // a copy of each key that is open, in the order of their openings; it goes into the record of its closing
    held: List<Key>,
    // whether there was a shutting
    is_shut: bool,
    // whether a call could not be recorded
    silent: bool,
}

impl Model for FixtureRecord {
    ghost use Rattle.std.specs.Prelude.{◌≡◌, ◌≤◌, ◌+◌, cond, length, vec_len};
    ghost use Rattle.std.specs.Vec.{vec_capacity};
    ghost use Rattle.cd_outside.specs.FixtureCall.{open_keys, was_shut};
    ghost use Rattle.cd_outside.specs.FixtureRecord.{Recorded};

    ghost Value = { Recorded };

    ghost view = { λ it. record { calls = it.calls.items; silent = it.silent } };

    ghost invariant = { λ it. (it.held ≡ open_keys it.calls.items) × ((it.is_shut ≡ was_shut it.calls.items)
        × (vec_len it.calls + (length it.held + cond it.is_shut 0 1) ≤ vec_capacity it.calls)) };
}

impl FixtureRecord {
    /// No call was made yet.
    pub fn new(alloc: Global) -> Result<FixtureRecord, NoMemory>
        ensures { IfOk result (λ made. made ≡ record { calls = []; silent = false }) }
    {
        Ok(FixtureRecord {
            alloc,
            calls: Vec::with_capacity(alloc, 1)?,
            held: List::new(alloc),
            is_shut: false,
            silent: false,
        })
    }

    /// The calls so far, as long as they could be recorded.
    pub fn calls(&self) -> &Vec<FixtureCall>
        ensures { result.now.items ≡ self.now.calls }
    {
        &self.calls
    }

    /// Records an opening. `NoMemory` says that it could not, and that nothing is told any more.
    pub fn add_opened(&mut self, key: &Key) -> Result<(), NoMemory>
        ensures adds { Adds self.old (call.Opened key.now ∷ []) self.new }
        ensures ok { OnOk result (self.new.silent ≡ self.old.silent) }
        ensures err { OnErr result ((self.old.silent ≡ false) × (self.new.silent ≡ true)) }
    {
        if self.silent {
            return Ok(());
        }
        let Ok((opened, kept)) = two_copies(self.alloc, key) else {
            self.silent = true;
            return Err(NoMemory);
        };
        let Ok(()) = hold(&mut self.calls, &mut self.held, kept) else {
            self.silent = true;
            return Err(NoMemory);
        };
        self.calls.push_reserved(FixtureCall::Opened(opened));
        Ok(())
    }

    /// Records an opening that failed.
    pub fn add_refused(&mut self, key: &Key)
        ensures adds { Adds self.old (call.NotOpened key.now ∷ []) self.new }
    {
        if self.silent {
            return;
        }
        let Ok(refused) = key.copy(self.alloc) else {
            self.silent = true;
            return;
        };
        let Ok(()) = self.calls.reserve(self.held.as_slice().len() + 2) else {
            self.silent = true;
            return;
        };
        self.calls.push_reserved(FixtureCall::NotOpened(refused));
    }

    /// Records a closing, without taking memory.
    pub fn add_closed(&mut self, key: &Key)
        ensures adds { Adds self.old (call.Closed key.now ∷ []) self.new }
        ensures tells { has_key key.now (open_keys self.old.calls) ≡ true → self.new.silent ≡ self.old.silent }
    {
        if self.silent {
            return;
        }
        match take_key(&mut self.held, key) {
            Some(kept) => self.calls.push_reserved(FixtureCall::Closed(kept)),
            None => self.silent = true,
        }
    }

    /// Records a shutting, without taking memory.
    pub fn add_shut(&mut self)
        ensures adds { Adds self.old (call.Shut ∷ []) self.new }
        ensures tells { was_shut self.old.calls ≡ false → self.new.silent ≡ self.old.silent }
    {
        if self.silent {
            return;
        }
        if self.is_shut {
            self.silent = true;
            return;
        }
        self.is_shut = true;
        self.calls.push_reserved(FixtureCall::Shut);
    }
}

fn two_copies(alloc: Global, key: &Key) -> Result<(Key, Key), NoMemory>
    ensures { IfOk result (λ both. (both.0 ≡ key.now) × (both.1 ≡ key.now)) }
{
    let one = key.copy(alloc)?;
    let two = key.copy(alloc)?;
    Ok((one, two))
}

// Adds the key to those that are open, and takes memory for the calls that are to come then: its opening, a closing of each
// open key, and a shutting.
fn hold(calls: &mut Vec<FixtureCall>, held: &mut List<Key>, key: Key) -> Result<(), NoMemory>
    ensures calls { calls.new.items ≡ calls.old.items }
    ensures len { vec_len calls.new ≡ vec_len calls.old }
    ensures grows { vec_capacity calls.old ≤ vec_capacity calls.new }
    ensures ok { OnOk result ((held.new ≡ held.old ++ key ∷ []) × (vec_len calls.new + (length held.old + 3) ≤ vec_capacity calls.new)) }
    ensures err { OnErr result (held.new ≡ held.old) }
{
    calls.reserve(held.as_slice().len() + 3)?;
    held.push(key)?;
    Ok(())
}

// Takes the first of these keys that is the key out, or answers `None` where none is.
fn take_key(keys: &mut List<Key>, key: &Key) -> Option<Key>
    ensures some { OnSome result ((has_key key.now keys.old ≡ true) × (length keys.new + 1 ≡ length keys.old)) }
    ensures taken { MatchOption result (keys.new ≡ keys.old) (λ taken. (taken ≡ key.now) × (keys.new ≡ without_key key.now keys.old)) }
    ensures none { IfNone result (has_key key.now keys.old ≡ false) }
{
    let at = find(keys.as_slice(), key)?;
    Some(keys.remove(at))
}

// The first place of the key among these, or `None`.
fn find(keys: &[Key], key: &Key) -> Option<usize>
    ensures some { OnSome result (has_key key.now keys.now ≡ true) }
    ensures taken { MatchOption result (has_key key.now keys.now ≡ false) (λ at. (at < length keys.now) × ((slice_get keys.now at ≡ Some key.now) × (remove keys.now at ≡ without_key key.now keys.now))) }
{
    for (at, one) in keys.iter().enumerate() {
        if key.same(one) {
            return Some(at);
        }
    }
    None
}
