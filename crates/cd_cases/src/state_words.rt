//! What a history leaves, in words.
//!
//! Between these a semicolon and a space stand, and what there is none of is left out:
//!
//!     serial 2        serial 3, halted
//!     published 0 1        retired 0 1        (drafts, by their serials, and serials)
//!     draft 0 NAME: 2 of 2 made, 1 of 2 started, failed :80, published as 1, 0 stopped, 0 cleaned
//!     begun 1 under 2        (a request that runs: its caller, and its serial)
//!     :80 of app 1.0        :80 of instance 1.0        (who holds a key)
use crate::keys::put_key;
use crate::words::put;
use cd_legal::{Drafted, Life, OpenTicket, State};
use cd_outside::Pair;
use cd_text::{NoMemory, Octets};
use cd_tree::Tree;
use std::alloc::Global;

pub fn state_text(alloc: Global, state: &State) -> Result<Octets, NoMemory> {
    let mut out = Octets::new(alloc);
    put_serial(alloc, &mut out, state)?;
    put_published(alloc, &mut out, state.published.as_slice())?;
    put_retired(alloc, &mut out, state.retired.as_slice())?;
    put_drafts(alloc, &mut out, state.drafts.as_slice())?;
    put_tickets(alloc, &mut out, state.tickets.as_slice())?;
    put_pairs(alloc, &mut out, state.pairs.as_slice())?;
    Ok(out)
}

fn put_serial(alloc: Global, out: &mut Octets, state: &State) -> Result<(), NoMemory> {
    let serial = state.serial;
    let words = format!(in alloc; "serial {serial}")?;
    put(out, words.as_str())?;
    if state.halted {
        put(out, ", halted")?;
    }
    Ok(())
}

fn put_published(alloc: Global, out: &mut Octets, drafts: &[u64]) -> Result<(), NoMemory> {
    if drafts.is_empty() {
        return Ok(());
    }
    put(out, "; published")?;
    for draft in drafts {
        let words = format!(in alloc; " {draft}")?;
        put(out, words.as_str())?;
    }
    Ok(())
}

fn put_retired(alloc: Global, out: &mut Octets, serials: &[u32]) -> Result<(), NoMemory> {
    if serials.is_empty() {
        return Ok(());
    }
    put(out, "; retired")?;
    for serial in serials {
        let words = format!(in alloc; " {serial}")?;
        put(out, words.as_str())?;
    }
    Ok(())
}

fn put_drafts(alloc: Global, out: &mut Octets, drafts: &[Drafted]) -> Result<(), NoMemory> {
    for (number, drafted) in drafts.iter().enumerate() {
        put_draft(alloc, out, number, drafted)?;
    }
    Ok(())
}

fn put_draft(
    alloc: Global,
    out: &mut Octets,
    number: usize,
    drafted: &Drafted,
) -> Result<(), NoMemory> {
    let name = name_of(&drafted.tree);
    let words = format!(in alloc; "; draft {number} {name}: ")?;
    put(out, words.as_str())?;
    put_made(alloc, out, drafted)?;
    if let Some(key) = &drafted.failed {
        put(out, ", failed ")?;
        put_key(alloc, out, key)?;
    }
    put_life(alloc, out, drafted.life)?;
    put_ended(alloc, out, drafted)
}

fn name_of(tree: &Tree) -> &str {
    match tree {
        Tree::Text(name) => name.as_str(),
        _ => "no name",
    }
}

fn put_made(alloc: Global, out: &mut Octets, drafted: &Drafted) -> Result<(), NoMemory> {
    let (made, modules) = (drafted.made, drafted.plan.modules.len());
    let (started, apps) = (drafted.started, drafted.plan.apps.len());
    let words = format!(in alloc; "{made} of {modules} made, {started} of {apps} started")?;
    put(out, words.as_str())
}

fn put_life(alloc: Global, out: &mut Octets, life: Life) -> Result<(), NoMemory> {
    match life {
        Life::Live => put(out, ", live"),
        Life::Published(serial) => {
            let words = format!(in alloc; ", published as {serial}")?;
            put(out, words.as_str())
        }
        Life::Abandoned => put(out, ", abandoned"),
    }
}

fn put_ended(alloc: Global, out: &mut Octets, drafted: &Drafted) -> Result<(), NoMemory> {
    let (stopped, cleaned) = (drafted.stopped, drafted.cleaned);
    let words = format!(in alloc; ", {stopped} stopped, {cleaned} cleaned")?;
    put(out, words.as_str())
}

fn put_tickets(alloc: Global, out: &mut Octets, tickets: &[OpenTicket]) -> Result<(), NoMemory> {
    for ticket in tickets {
        let (caller, serial) = (ticket.caller, ticket.serial);
        let words = format!(in alloc; "; begun {caller} under {serial}")?;
        put(out, words.as_str())?;
    }
    Ok(())
}

fn put_pairs(alloc: Global, out: &mut Octets, pairs: &[Pair]) -> Result<(), NoMemory> {
    for pair in pairs {
        put_pair(alloc, out, pair)?;
    }
    Ok(())
}

fn put_pair(alloc: Global, out: &mut Octets, pair: &Pair) -> Result<(), NoMemory> {
    let kind = if pair.holder.app { "app" } else { "instance" };
    let (draft, place) = (pair.holder.draft, pair.holder.place);
    put(out, "; ")?;
    put_key(alloc, out, &pair.key)?;
    let words = format!(in alloc; " of {kind} {draft}.{place}")?;
    put(out, words.as_str())
}
