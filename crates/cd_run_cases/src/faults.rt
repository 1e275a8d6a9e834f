//! Which calls of a step fail.
use cd_rows::{RowFault, find, number_of, only};
use cd_text::List;
use cd_tree::Tree;
use std::alloc::Global;

// How many calls of a disk that has stopped fail. No step makes more.
const STOPPED: u64 = 100;

/// The numbers of the calls that fail of this part of the outside.
pub fn failing(alloc: Global, step: &Tree, part: &str) -> Result<List<u64>, RowFault> {
    let mut numbers = List::new(alloc);
    let Some(parts) = find(step, "fails") else {
        return Ok(numbers);
    };
    only(alloc, parts, "configuration disk fixtures lane output")?;
    match find(parts, part) {
        None => {}
        Some(Tree::Items(trees)) => {
            for tree in trees.as_slice() {
                numbers.push(u64::from(number_of(tree)?))?;
            }
        }
        Some(_) => return Err(RowFault::Malformed("calls that are no list")),
    }
    Ok(numbers)
}

/// The same of the disk, which may stop at a call.
pub fn disk_failing(alloc: Global, step: &Tree) -> Result<List<u64>, RowFault> {
    let mut numbers = failing(alloc, step, "disk")?;
    if let Some(number) = find(step, "stops") {
        let first = u64::from(number_of(number)?);
        for call in 0..STOPPED {
            numbers.push(first + call)?;
        }
    }
    Ok(numbers)
}
