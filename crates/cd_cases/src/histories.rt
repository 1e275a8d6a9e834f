//! Histories: lists of entries, replayed from the opening state.
//!
//!     {"history": ENTRIES, "modules": [MODULE, ..], "apps": [APP, ..], "found": STATE}      or "refused": "17 retire 1"
//!     {"history": ENTRIES, "modules": .., "apps": .., "next": ENTRIES, "found": ENTRIES}
//!
//! ENTRIES are BYTES, entries between which commas stand. D is the number of a draft, D.I one of its instances or apps, and S a
//! serial:
//!
//!     draft D NAME        make D.I        start D.I        publish D as S from S        abandon D        stop D.I
//!     begin CALLER under S        finish CALLER        retire S        clean D.I        halt S
//!
//! A `make` or `start` that takes keys ends with `takes N`, and one of which a key could not be opened then with `fails KEY`. Each
//! draft has a text as its tree, its name, and the row's plan: a module is its name and its keys, as `echo :7 :8`, and so is an app.
//!
//! Without `next` the state is found (state_words.rt), or the first entry that is not allowed, with its place counted from 0. With
//! `next` those of its entries are found that may follow the history, each by itself, or `none`.
use crate::keys::{key_in, keys_in};
use crate::state_words::state_text;
use crate::words::{found, number_in, put, put_answer, small_in, steps_of, text_in, words_of};
use cd_legal::{Change, Entry, Plan, PlanApp, PlanModule, ReplayFault, replay};
use cd_outside::Key;
use cd_rows::{Outcome, RowFault, bytes_at, find, has, only, says};
use cd_text::{List, Octets, Text, parts_of};
use cd_tree::{SharedText, Spot, Tree};
use std::alloc::Global;

pub fn history_outcome(alloc: Global, row: &Tree) -> Result<Outcome, RowFault> {
    only(alloc, row, "history modules apps next found refused")?;
    let plan = plan_of(alloc, row)?;
    let text = bytes_at(alloc, row, "history")?;
    let steps = steps_of(alloc, text_in(text.as_slice())?)?;
    if has(row, "next") {
        let next = bytes_at(alloc, row, "next")?;
        let next = steps_of(alloc, text_in(next.as_slice())?)?;
        allowed_next(alloc, &plan, steps.as_slice(), next.as_slice())
    } else {
        replayed(alloc, &plan, steps.as_slice())
    }
}

fn plan_of(alloc: Global, row: &Tree) -> Result<Plan, RowFault> {
    let modules = modules_of(alloc, find(row, "modules"))?;
    let apps = apps_of(alloc, find(row, "apps"))?;
    Ok(Plan { modules, apps })
}

fn modules_of(alloc: Global, texts: Option<&Tree>) -> Result<List<PlanModule>, RowFault> {
    let mut modules = List::new(alloc);
    if let Some(Tree::Items(texts)) = texts {
        for text in texts.as_slice() {
            let (name, keys) = part_of(alloc, text)?;
            let name = SharedText::new(alloc, name)?;
            let at = Spot::root(alloc);
            modules.push(PlanModule { name, at, keys })?;
        }
    }
    Ok(modules)
}

fn apps_of(alloc: Global, texts: Option<&Tree>) -> Result<List<PlanApp>, RowFault> {
    let mut apps = List::new(alloc);
    if let Some(Tree::Items(texts)) = texts {
        for text in texts.as_slice() {
            let (name, keys) = part_of(alloc, text)?;
            apps.push(PlanApp { name, keys })?;
        }
    }
    Ok(apps)
}

// The name of a module or an app, and its keys.
fn part_of(alloc: Global, text: &Tree) -> Result<(Text, List<Key>), RowFault> {
    let Tree::Text(text) = text else {
        return Err(RowFault::Malformed("a module or an app that is no text"));
    };
    let words = words_of(alloc, text.as_str())?;
    match words.as_slice() {
        [name, keys @ ..] => Ok((Text::from_str(alloc, name)?, keys_in(alloc, keys)?)),
        [] => Err(RowFault::Malformed("a module or an app without a name")),
    }
}

fn replayed(alloc: Global, plan: &Plan, steps: &[&str]) -> Result<Outcome, RowFault> {
    let entries = entries_of(alloc, plan, steps)?;
    match replay(alloc, entries.as_slice()) {
        Ok(state) => Ok(found(state_text(alloc, &state)?)),
        Err(ReplayFault::NotAllowed(place)) => refused_at(alloc, steps, place),
        Err(ReplayFault::NoMemory) => Err(RowFault::NoMemory),
    }
}

fn refused_at(alloc: Global, steps: &[&str], place: usize) -> Result<Outcome, RowFault> {
    let step = steps.get(place).copied().unwrap_or("");
    let words = format!(in alloc; "{place} {step}")?;
    says(alloc, "refused", words.as_str())
}

// Those of the next entries that may follow the history.
fn allowed_next(
    alloc: Global,
    plan: &Plan,
    steps: &[&str],
    next: &[&str],
) -> Result<Outcome, RowFault> {
    let mut allowed = Octets::new(alloc);
    for step in next {
        if may_follow(alloc, plan, steps, step)? {
            put_answer(&mut allowed, step.as_bytes())?;
        }
    }
    if allowed.is_empty() {
        put(&mut allowed, "none")?;
    }
    Ok(found(allowed))
}

fn may_follow(alloc: Global, plan: &Plan, steps: &[&str], next: &str) -> Result<bool, RowFault> {
    let mut entries = entries_of(alloc, plan, steps)?;
    entries.push(entry_of(alloc, plan, next)?)?;
    match replay(alloc, entries.as_slice()) {
        Ok(_) => Ok(true),
        Err(ReplayFault::NotAllowed(place)) if place == steps.len() => Ok(false),
        Err(ReplayFault::NotAllowed(_)) => Err(RowFault::Malformed("a history that is not legal")),
        Err(ReplayFault::NoMemory) => Err(RowFault::NoMemory),
    }
}

fn entries_of(alloc: Global, plan: &Plan, steps: &[&str]) -> Result<List<Entry>, RowFault> {
    let mut entries = List::new(alloc);
    for step in steps {
        entries.push(entry_of(alloc, plan, step)?)?;
    }
    Ok(entries)
}

fn entry_of(alloc: Global, plan: &Plan, step: &str) -> Result<Entry, RowFault> {
    let words = words_of(alloc, step)?;
    let [verb, words @ ..] = words.as_slice() else {
        return Err(RowFault::Malformed("no entry"));
    };
    match *verb {
        "draft" => draft_of(alloc, plan, words),
        "make" => make_of(alloc, words),
        "start" => start_of(alloc, words),
        "publish" => publish_of(words),
        "stop" => stop_of(alloc, words),
        "begin" => begin_of(words),
        "clean" => clean_of(alloc, words),
        _ => numbered(*verb, words),
    }
}

fn draft_of(alloc: Global, plan: &Plan, words: &[&str]) -> Result<Entry, RowFault> {
    let [number, name] = words else {
        return Err(RowFault::Malformed("not `draft D NAME`"));
    };
    let tree = Tree::Text(SharedText::from_str(alloc, name)?);
    Ok(Entry::Draft(number_in(number)?, tree, plan.copy(alloc)?))
}

fn publish_of(words: &[&str]) -> Result<Entry, RowFault> {
    let [draft, "as", serial, "from", from] = words else {
        return Err(RowFault::Malformed("not `publish D as S from S`"));
    };
    let (draft, serial, from) = (number_in(draft)?, small_in(serial)?, small_in(from)?);
    Ok(Entry::Publish(draft, serial, from, Change::First))
}

fn begin_of(words: &[&str]) -> Result<Entry, RowFault> {
    let [caller, "under", serial] = words else {
        return Err(RowFault::Malformed("not `begin CALLER under S`"));
    };
    Ok(Entry::Begin(small_in(caller)?, small_in(serial)?))
}

fn stop_of(alloc: Global, words: &[&str]) -> Result<Entry, RowFault> {
    let [at] = words else {
        return Err(RowFault::Malformed("not `stop D.I`"));
    };
    let (draft, place) = place_in(alloc, at)?;
    Ok(Entry::Stopped(draft, place))
}

fn clean_of(alloc: Global, words: &[&str]) -> Result<Entry, RowFault> {
    let [at] = words else {
        return Err(RowFault::Malformed("not `clean D.I`"));
    };
    let (draft, place) = place_in(alloc, at)?;
    Ok(Entry::Cleaned(draft, place))
}

// An entry of a verb and one number.
fn numbered(verb: &str, words: &[&str]) -> Result<Entry, RowFault> {
    let [number] = words else {
        return Err(RowFault::Malformed("no entry"));
    };
    match verb {
        "abandon" => Ok(Entry::Abandon(number_in(number)?)),
        "finish" => Ok(Entry::Finish(small_in(number)?)),
        "retire" => Ok(Entry::Retire(small_in(number)?)),
        "halt" => Ok(Entry::Halt(small_in(number)?)),
        _ => Err(RowFault::Malformed("no entry")),
    }
}

fn make_of(alloc: Global, words: &[&str]) -> Result<Entry, RowFault> {
    let [at, words @ ..] = words else {
        return Err(RowFault::Malformed("not `make D.I`"));
    };
    let (draft, place) = place_in(alloc, at)?;
    let taking = taking_of(alloc, words)?;
    Ok(Entry::Made(draft, place, taking.taken, taking.failed))
}

fn start_of(alloc: Global, words: &[&str]) -> Result<Entry, RowFault> {
    let [at, words @ ..] = words else {
        return Err(RowFault::Malformed("not `start D.I`"));
    };
    let (draft, place) = place_in(alloc, at)?;
    let taking = taking_of(alloc, words)?;
    Ok(Entry::Started(draft, place, taking.taken, taking.failed))
}

// How many keys are taken, and the key that could not be opened.
#[derive(Drop)]
struct Taking {
    taken: u32,
    failed: Option<Key>,
}

fn taking_of(alloc: Global, words: &[&str]) -> Result<Taking, RowFault> {
    match words {
        [] => Ok(Taking {
            taken: 0,
            failed: None,
        }),
        ["takes", taken] => Ok(Taking {
            taken: small_in(taken)?,
            failed: None,
        }),
        ["takes", taken, "fails", key] => Ok(Taking {
            taken: small_in(taken)?,
            failed: Some(key_in(alloc, key)?),
        }),
        _ => Err(RowFault::Malformed("not `takes N fails KEY`")),
    }
}

// The draft and the place of `D.I`.
fn place_in(alloc: Global, word: &str) -> Result<(u64, u32), RowFault> {
    let parts = parts_of(alloc, word, '.')?;
    let [draft, place] = parts.as_slice() else {
        return Err(RowFault::Malformed("not `D.I`"));
    };
    Ok((number_in(draft)?, small_in(place)?))
}
