//! The pool of keys, whose leases have names in a row.
//!
//!     {"pool": STEPS, "found": ANSWERS}
//!
//! STEPS are BYTES, steps between which commas stand: `reserve N`, `take NAME KEY`, `give NAME`, `count KEY`, `has KEY`, `spare` and
//! `empty`. Each has an answer: a `reserve` the room that there is then, a `take` `first` or `shared`, and a `give` `still` or
//! `last KEY`. What is not given back by a step is given back at the end.
ghost use Rattle.std.specs.Prelude.{◌≡◌, ◌<◌, ◌+◌, []};
ghost use Rattle.std.specs.Vec.{vec_len, vec_capacity};
ghost use Rattle.cd_cases.specs.Leases.{AreLeases};

use crate::keys::{key_in, put_key};
use crate::words::{found, put_answer, small_in, steps_of, text_in, words_of};
use cd_outside::{Holder, Key};
use cd_pool::{Gave, Lease, Pool, Took};
use cd_rows::{Outcome, RowFault, bytes_at, only};
use cd_text::{List, NoMemory, Octets, Text};
use cd_tree::Tree;
use std::alloc::Global;

pub fn pool_outcome(alloc: Global, row: &Tree) -> Result<Outcome, RowFault> {
    only(alloc, row, "pool found")?;
    let text = bytes_at(alloc, row, "pool")?;
    let steps = steps_of(alloc, text_in(text.as_slice())?)?;
    Ok(found(answers(alloc, steps.as_slice())?))
}

// The answers of the steps. A pool and its leases may not be dropped, so all is given back before anything else is looked at.
fn answers(alloc: Global, steps: &[&str]) -> Result<Octets, RowFault> {
    let mut pool = Pool::new(alloc);
    let mut leases = Vec::new(alloc);
    let answers = played(alloc, &mut pool, &mut leases, steps);
    give_all(&mut pool, &mut leases);
    leases.destroy_empty();
    pool.end();
    answers
}

fn played(
    alloc: Global,
    pool: &mut Pool,
    leases: &mut Vec<Lease>,
    steps: &[&str],
) -> Result<Octets, RowFault>
    requires { AreLeases leases.old.items pool.old.held }
    ensures { AreLeases leases.new.items pool.new.held }
{
    let mut names = List::new(alloc);
    let mut out = Octets::new(alloc);
    'steps: for step in steps {
        play(alloc, pool, leases, &mut names, step, &mut out)?;
    }
    Ok(out)
}

fn play(
    alloc: Global,
    pool: &mut Pool,
    leases: &mut Vec<Lease>,
    names: &mut List<Text>,
    step: &str,
    out: &mut Octets,
) -> Result<(), RowFault>
    requires { AreLeases leases.old.items pool.old.held }
    ensures { AreLeases leases.new.items pool.new.held }
{
    let words = words_of(alloc, step)?;
    match words.as_slice() {
        ["reserve", count] => reserve(alloc, pool, small_in(count)?, out),
        ["take", name, key] => {
            names.push(Text::from_str(alloc, name)?)?;
            take_key(pool, leases, key_in(alloc, key)?, out)
        }
        ["give", name] => give_named(alloc, pool, leases, names, name, out),
        words => look(alloc, pool, words, out),
    }
}

fn reserve(alloc: Global, pool: &mut Pool, count: u32, out: &mut Octets) -> Result<(), RowFault>
    ensures { pool.new.held ≡ pool.old.held }
{
    pool.reserve(count)?;
    Ok(put_spare(alloc, out, pool.spare())?)
}

fn put_spare(alloc: Global, out: &mut Octets, spare: usize) -> Result<(), NoMemory> {
    let words = format!(in alloc; "{spare}")?;
    put_answer(out, words.as_str().as_bytes())
}

fn take_key(
    pool: &mut Pool,
    leases: &mut Vec<Lease>,
    key: Key,
    out: &mut Octets,
) -> Result<(), RowFault>
    requires { AreLeases leases.old.items pool.old.held }
    ensures { AreLeases leases.new.items pool.new.held }
{
    if pool.spare() == 0 {
        return Err(RowFault::Malformed("a take without room"));
    }
    leases.reserve(1)?;
    let took = take(pool, leases, key);
    Ok(put_took(out, took)?)
}

fn take(pool: &mut Pool, leases: &mut Vec<Lease>, key: Key) -> Took
    requires room { 0 < pool.old.spare }
    requires space { vec_len leases.old < vec_capacity leases.old }
    requires fit { AreLeases leases.old.items pool.old.held }
    ensures { AreLeases leases.new.items pool.new.held }
{
    let holder = Holder {
        draft: 0,
        app: true,
        place: 0,
    };
    let (lease, took) = pool.take(key, holder);
    leases.push_reserved(lease);
    took
}

fn put_took(out: &mut Octets, took: Took) -> Result<(), NoMemory> {
    match took {
        Took::First => put_answer(out, b"first"),
        Took::Shared => put_answer(out, b"shared"),
    }
}

fn give_named(
    alloc: Global,
    pool: &mut Pool,
    leases: &mut Vec<Lease>,
    names: &mut List<Text>,
    name: &str,
    out: &mut Octets,
) -> Result<(), RowFault>
    requires { AreLeases leases.old.items pool.old.held }
    ensures { AreLeases leases.new.items pool.new.held }
{
    let Some(at) = place_of(names.as_slice(), name) else {
        return Err(RowFault::Malformed("a lease that is not there"));
    };
    if at >= leases.len() || at >= names.len() {
        return Err(RowFault::Malformed("a lease that is not there"));
    }
    names.remove(at);
    let gave = give(pool, leases, at);
    Ok(put_gave(alloc, out, &gave)?)
}

fn place_of(names: &[Text], name: &str) -> Option<usize> {
    for (at, one) in names.iter().enumerate() {
        if one.equals(name) {
            return Some(at);
        }
    }
    None
}

fn put_gave(alloc: Global, out: &mut Octets, gave: &Gave) -> Result<(), NoMemory> {
    match gave {
        Gave::Still => put_answer(out, b"still"),
        Gave::Last(key) => {
            put_answer(out, b"last ")?;
            put_key(alloc, out, key)
        }
    }
}

fn give(pool: &mut Pool, leases: &mut Vec<Lease>, at: usize) -> Gave
    requires within { at < vec_len leases.old }
    requires fit { AreLeases leases.old.items pool.old.held }
    ensures fit { AreLeases leases.new.items pool.new.held }
    ensures fewer { vec_len leases.new + 1 ≡ vec_len leases.old }
{
    let lease = leases.remove(at);
    pool.give(lease)
}

fn give_all(pool: &mut Pool, leases: &mut Vec<Lease>)
    requires { AreLeases leases.old.items pool.old.held }
    ensures leases { vec_len leases.new ≡ 0 }
    ensures held { pool.new.held ≡ [] }
{
    'giving: while !leases.is_empty() {
        give(pool, leases, 0);
    }
}

fn look(alloc: Global, pool: &Pool, words: &[&str], out: &mut Octets) -> Result<(), RowFault> {
    match words {
        ["count", key] => {
            let count = pool.count(&key_in(alloc, key)?);
            let words = format!(in alloc; "{count}")?;
            Ok(put_answer(out, words.as_str().as_bytes())?)
        }
        ["has", key] => Ok(put_truth(out, pool.has(&key_in(alloc, key)?))?),
        ["empty"] => Ok(put_truth(out, pool.is_empty())?),
        ["spare"] => Ok(put_spare(alloc, out, pool.spare())?),
        _ => Err(RowFault::Malformed("no step of a pool")),
    }
}

fn put_truth(out: &mut Octets, truth: bool) -> Result<(), NoMemory> {
    put_answer(out, if truth { b"yes" } else { b"no" })
}
