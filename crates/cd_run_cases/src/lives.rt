//! What is done with a file, step by step.
ghost use Rattle.cd_tree.specs.Tree.{IsSound};

use crate::faults::disk_failing;
use crate::file::{append_file, file_in, file_of};
use crate::running::run_over;
use crate::saving::save_on;
use cd_autosave::MemoryDisk;
use cd_rows::{Outcome, RowFault, find, has, only};
use cd_text::Octets;
use cd_tree::Tree;
use std::alloc::Global;
use std::sync::Wait;
use std::thread::Threads;

/// What the steps of a row come to, and the file that is left.
pub fn life_outcome<R: Threads + Wait + Sync>(
    rt: &R,
    alloc: Global,
    row: &Tree,
) -> Result<Outcome, RowFault>
    requires { IsSound row.now }
{
    only(alloc, row, "ends file steps")?;
    Ok(Outcome {
        member: "ends",
        bytes: lived(rt, alloc, row)?,
    })
}

// What all steps come to, and what the file then holds.
fn lived<R: Threads + Wait + Sync>(rt: &R, alloc: Global, row: &Tree) -> Result<Octets, RowFault> {
    let Some(Tree::Items(steps)) = find(row, "steps") else {
        return Err(RowFault::Malformed("steps that are no list"));
    };
    let mut text = Octets::new(alloc);
    let mut file = file_of(alloc, row)?;
    for step in steps.as_slice() {
        file = stepped(rt, alloc, step, file, &mut text)?;
    }
    append_file(alloc, &mut text, file.as_slice())?;
    Ok(text)
}

// The file after a step.
fn stepped<R: Threads + Wait + Sync>(
    rt: &R,
    alloc: Global,
    step: &Tree,
    file: Octets,
    text: &mut Octets,
) -> Result<Octets, RowFault> {
    let disk = MemoryDisk::new(alloc, file, disk_failing(alloc, step)?);
    let disk = if has(step, "saves") {
        save_on(alloc, step, disk, text)?
    } else {
        run_over(rt, alloc, step, disk, text)?
    };
    Ok(file_in(disk))
}
