//! Files of rows, and what is printed of them.
ghost use Rattle.cd_tree.specs.Tree.{IsSound};

use crate::outcome::Outcome;
use crate::row::{RowFault, tree_of};
use crate::wanted::{difference_of, wanted_name};
use cd_tree::Tree;
use std::alloc::Global;
use std::rt::{Env, Files};
use std::{env, fs, io};

/// The kinds of rows that a program knows. A value of it has what the calls need besides the row, as the runtime.
pub trait Kinds {
    /// What the call of the row comes to.
    fn outcome(&self, alloc: Global, row: &Tree) -> Result<Outcome, RowFault>
        requires { IsSound row.now };
}

/// Whether the program's words name files, and every row of each agrees. It prints a line for each row that does not, with its
/// file, its line, what was wanted and what came, and a line for each file. Each line of a file that is neither empty nor begins
/// with `#` is a row, a JSON object. A row that can't be read, or is of no known kind, or has an unknown member, or wants nothing,
/// does not agree, nor does a file without rows.
pub fn check_files<K: Kinds>(
    rt: &(impl Env + Files + Print + AllocGlobal),
    kinds: &K,
) -> io::Result<bool> {
    let mut files = 0u64;
    let mut differing = 0u64;
    for name in env::args(rt)?.skip(1) {
        files = files.saturating_add(1);
        if !check_file(rt, kinds, name.as_str())? {
            differing = differing.saturating_add(1);
        }
    }
    Ok(files > 0 && differing == 0)
}

// Whether the file can be read, has rows, and each agrees.
fn check_file<K: Kinds>(
    rt: &(impl Files + Print + AllocGlobal),
    kinds: &K,
    name: &str,
) -> io::Result<bool> {
    match fs::read(rt, name) {
        Ok(bytes) => check_rows(rt, kinds, name, bytes.as_slice()),
        Err(_) => {
            println!(rt; "{name}: can't be read")?;
            Ok(false)
        }
    }
}

fn check_rows<K: Kinds>(
    rt: &(impl Print + AllocGlobal),
    kinds: &K,
    name: &str,
    bytes: &[u8],
) -> io::Result<bool> {
    let mut line_number = 0u64;
    let mut rows = 0u64;
    let mut differing = 0u64;
    for line in bytes.split(|byte| *byte == b'\n') {
        line_number = line_number.saturating_add(1);
        if is_row(line) {
            rows = rows.saturating_add(1);
            if !check_row(rt, kinds, name, line_number, line)? {
                differing = differing.saturating_add(1);
            }
        }
    }
    conclude(rt, name, rows, differing)
}

fn is_row(line: &[u8]) -> bool {
    match line {
        [] => false,
        [first, ..] => *first != b'#',
    }
}

fn conclude(rt: &impl Print, name: &str, rows: u64, differing: u64) -> io::Result<bool> {
    if rows == 0 {
        println!(rt; "{name}: no rows")?;
    } else if differing == 0 {
        println!(rt; "{name}: {rows} rows agree")?;
    } else {
        println!(rt; "{name}: {differing} of {rows} rows differ")?;
    }
    Ok(rows > 0 && differing == 0)
}

// Whether the row agrees.
fn check_row<K: Kinds>(
    rt: &(impl Print + AllocGlobal),
    kinds: &K,
    name: &str,
    line_number: u64,
    line: &[u8],
) -> io::Result<bool> {
    match difference_in(rt.alloc(), kinds, line) {
        Ok(None) => Ok(true),
        Ok(Some(words)) => differs(rt, name, line_number, words.as_str()),
        Err(RowFault::Malformed(words)) => differs(rt, name, line_number, words),
        Err(RowFault::NoMemory) => differs(rt, name, line_number, "out of memory"),
    }
}

fn differs(rt: &impl Print, name: &str, line_number: u64, words: &str) -> io::Result<bool> {
    println!(rt; "{name} line {line_number}: {words}")?;
    Ok(false)
}

// How the row of this line differs, if it does.
fn difference_in<K: Kinds>(
    alloc: Global,
    kinds: &K,
    line: &[u8],
) -> Result<Option<String>, RowFault> {
    let row = tree_of(alloc, line)?;
    let name = wanted_name(&row)?;
    let outcome = kinds.outcome(alloc, &row)?;
    difference_of(alloc, &row, name, &outcome)
}
