//! What a row wants, and how what came of it differs.
ghost use Rattle.cd_tree.specs.Tree.{IsSound};

use crate::outcome::Outcome;
use crate::row::{RowFault, bytes_of, find, has, member};
use cd_text::{Octets, Text};
use cd_tree::{Tree, print};
use std::alloc::Global;

// The members that say what is wanted. A row has one of them.
const WANTED: [&str; 8] = [
    "gives",
    "gives_text",
    "answered",
    "filled",
    "found",
    "length",
    "refused",
    "ends",
];

/// The name of the one member that says what is wanted.
pub fn wanted_name(row: &Tree) -> Result<&'static str, RowFault> {
    let mut found = None;
    for name in WANTED {
        if has(row, name) {
            if found.is_some() {
                return Err(RowFault::Malformed("more than one member says what is wanted"));
            }
            found = Some(name);
        }
    }
    found.ok_or(RowFault::Malformed("no member says what is wanted"))
}

/// How the outcome differs from what the row wants by the member of this name, if it does.
pub fn difference_of(
    alloc: Global,
    row: &Tree,
    name: &'static str,
    outcome: &Outcome,
) -> Result<Option<String>, RowFault>
    requires { IsSound row.now }
{
    if agrees(alloc, row, name, outcome)? {
        Ok(None)
    } else {
        Ok(Some(difference(alloc, row, name, outcome)?))
    }
}

// A tree is compared as its compact text, all else as bytes.
fn agrees(
    alloc: Global,
    row: &Tree,
    name: &'static str,
    outcome: &Outcome,
) -> Result<bool, RowFault>
    requires { IsSound row.now }
{
    if name == "gives" {
        let wanted = wanted_text(alloc, row, name)?;
        Ok(outcome.member == "gives" && outcome.bytes.equals(wanted.as_str().as_bytes()))
    } else {
        let wanted = wanted_bytes(alloc, row, name)?;
        Ok(outcome.member == meant(name) && wanted.equals(outcome.bytes.as_slice()))
    }
}

// The member by which the outcome is named.
fn meant(name: &'static str) -> &'static str {
    if name == "gives_text" { "gives" } else { name }
}

fn wanted_bytes(alloc: Global, row: &Tree, name: &str) -> Result<Octets, RowFault> {
    match find(row, name) {
        Some(value) => bytes_of(alloc, value),
        None => Err(RowFault::Malformed("no member says what is wanted")),
    }
}

fn wanted_text(alloc: Global, row: &Tree, name: &str) -> Result<Text, RowFault>
    requires { IsSound row.now }
{
    match member(alloc, row, name)? {
        Some(value) => Ok(print(alloc, value)?),
        None => Err(RowFault::Malformed("no member says what is wanted")),
    }
}

fn difference(
    alloc: Global,
    row: &Tree,
    name: &'static str,
    outcome: &Outcome,
) -> Result<String, RowFault>
    requires { IsSound row.now }
{
    let wanted = wanted_text(alloc, row, name)?;
    let wanted = start(wanted.as_str().as_bytes()).escape_ascii();
    let member = outcome.member;
    let got = start(outcome.bytes.as_slice()).escape_ascii();
    Ok(format!(in alloc; "wanted {name} {wanted} got {member} {got}")?)
}

// As much as is shown.
fn start(bytes: &[u8]) -> &[u8] {
    let shown = bytes.len().min(2_000);
    &bytes[..shown]
}
