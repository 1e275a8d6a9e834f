//! Which upstream is picked.
//!
//!     {"picks": POLICY, "upstreams": NUMBER, "calls": [[WORD, NUMBER], ..], "answered": TEXT}
//!
//! The policy is `first`, `round_robin` or `least_conn`. The calls are made one after another on a new balancer: `["begin", PLACE]`,
//! `["good", PLACE]` and `["bad", PLACE]`, which end the exchange there, and `["count", UPSTREAM]`. What the begins and counts
//! answered is wanted, with a space after each.
ghost use Rattle.std.specs.Prelude.{◌≡◌, ◌≤◌, ◌<◌, length, IfOk};

use cd_outside::Address;
use cd_peers::{Balancer, MAX_PLACES, MAX_UPSTREAMS, Policy};
use cd_rows::{Outcome, RowFault, find, number_of, only, text_of};
use cd_text::{List, NoMemory, Octets, Text, decimal};
use cd_tree::Tree;
use std::alloc::Global;

/// What the calls of the row answer.
pub fn picks_outcome(alloc: Global, row: &Tree) -> Result<Outcome, RowFault> {
    only(alloc, row, "picks upstreams calls answered")?;
    let policy = policy_of(text_of(row, "picks")?)?;
    let Some(Tree::Items(calls)) = find(row, "calls") else {
        return Err(RowFault::Malformed("calls that are no list"));
    };
    let bytes = played(alloc, policy, count_of(row)?, calls.as_slice())?;
    Ok(Outcome {
        member: "answered",
        bytes,
    })
}

pub fn policy_of(name: &str) -> Result<Policy, RowFault> {
    if name == "first" {
        Ok(Policy::First)
    } else if name == "round_robin" {
        Ok(Policy::RoundRobin)
    } else if name == "least_conn" {
        Ok(Policy::LeastConn)
    } else {
        Err(RowFault::Malformed("no policy"))
    }
}

pub fn count_of(row: &Tree) -> Result<u16, RowFault> {
    match find(row, "upstreams") {
        Some(number) => number_of(number),
        None => Err(RowFault::Malformed("no number of upstreams")),
    }
}

// So many upstreams, whose ports are their numbers and one.
pub fn upstreams_of(alloc: Global, count: u16) -> Result<List<Address>, RowFault>
    ensures some { IfOk result (λ made. 0 < length made) }
    ensures few { IfOk result (λ made. length made ≤ MAX_UPSTREAMS) }
{
    let mut made = List::new(alloc);
    for port in 1..=count {
        made.push(Address {
            host: Text::from_str(alloc, "up.test")?,
            port,
        })?;
    }
    if made.is_empty() || made.len() > MAX_UPSTREAMS {
        return Err(RowFault::Malformed("no upstream, or too many"));
    }
    Ok(made)
}

fn played(alloc: Global, policy: Policy, count: u16, calls: &[Tree]) -> Result<Octets, RowFault> {
    let mut balancer = Balancer::new(policy, upstreams_of(alloc, count)?);
    let mut out = Octets::new(alloc);
    for call in calls {
        make_call(alloc, &mut balancer, call, &mut out)?;
    }
    Ok(out)
}

fn make_call(
    alloc: Global,
    balancer: &mut Balancer,
    call: &Tree,
    out: &mut Octets,
) -> Result<(), RowFault> {
    let Tree::Items(pair) = call else {
        return Err(RowFault::Malformed("a call that is no pair"));
    };
    match pair.as_slice() {
        [Tree::Text(word), number] => {
            named_call(alloc, balancer, word.as_str(), number_of(number)?, out)
        }
        _ => Err(RowFault::Malformed("a call that is no pair")),
    }
}

fn named_call(
    alloc: Global,
    balancer: &mut Balancer,
    word: &str,
    number: u16,
    out: &mut Octets,
) -> Result<(), RowFault> {
    let number = u32::from(number);
    if word == "count" {
        return Ok(put_number(alloc, out, balancer.count(number))?);
    }
    if number as usize >= MAX_PLACES {
        return Err(RowFault::Malformed("no place"));
    }
    if word == "begin" {
        Ok(put_number(alloc, out, u64::from(balancer.begin(number)))?)
    } else if word == "good" {
        balancer.end(number, true);
        Ok(())
    } else if word == "bad" {
        balancer.end(number, false);
        Ok(())
    } else {
        Err(RowFault::Malformed("no call"))
    }
}

fn put_number(alloc: Global, out: &mut Octets, number: u64) -> Result<(), NoMemory> {
    let digits = decimal(alloc, number)?;
    out.append(digits.as_str().as_bytes())?;
    out.push(b' ')
}
