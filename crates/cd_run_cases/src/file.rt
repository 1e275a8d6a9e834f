//! What a file holds: as a row says it, and as it is shown.
use cd_autosave::{HEAD_BYTES, MemoryDisk, SECOND_START};
use cd_rows::{RowFault, bytes_at, bytes_of, find, has, only};
use cd_text::{NoMemory, Octets};
use cd_tree::Tree;
use std::alloc::Global;

/// The bytes of the file that a row begins with: none, those that it gives, or those of two slots with zeros between them.
pub fn file_of(alloc: Global, row: &Tree) -> Result<Octets, RowFault> {
    match find(row, "file") {
        None => Ok(Octets::new(alloc)),
        Some(Tree::Object(_)) => slots_of(alloc, row),
        Some(bytes) => bytes_of(alloc, bytes),
    }
}

fn slots_of(alloc: Global, row: &Tree) -> Result<Octets, RowFault> {
    let Some(slots) = find(row, "file") else {
        return Err(RowFault::Malformed("no file"));
    };
    only(alloc, slots, "first second")?;
    let mut bytes = Octets::new(alloc).into_vec();
    if has(slots, "first") {
        bytes = bytes_at(alloc, slots, "first")?.into_vec();
    }
    bytes.resize(SECOND_START as usize, 0)?;
    bytes.extend_from_slice(bytes_at(alloc, slots, "second")?.as_slice())?;
    Ok(Octets::from_vec(bytes))
}

/// The file of a disk, as reads give it.
pub fn file_in(disk: MemoryDisk) -> Octets {
    let MemoryDisk { first, changed, .. } = disk;
    match changed {
        Some(changed) => changed,
        None => first,
    }
}

/// Shows how long a file is and what its slots hold.
pub fn append_file(alloc: Global, text: &mut Octets, file: &[u8]) -> Result<(), NoMemory> {
    let length = file.len();
    let line = format!(in alloc; "file of {length} bytes\n")?;
    text.append(line.as_bytes())?;
    if !file.is_empty() {
        text.append(b"first")?;
        append_slot(alloc, text, file)?;
    }
    match file.split_at_checked(SECOND_START as usize) {
        Some((_, second)) if !second.is_empty() => {
            text.append(b"second")?;
            append_slot(alloc, text, second)
        }
        _ => Ok(()),
    }
}

// Shows the gate, the number and the length of a slot as bytes, and then what follows up to the first byte 0.
fn append_slot(alloc: Global, text: &mut Octets, bytes: &[u8]) -> Result<(), NoMemory> {
    for (at, byte) in bytes.iter().enumerate() {
        if at == 0 || at == 1 || at == 9 || at == HEAD_BYTES {
            text.push(b' ')?;
        }
        if at < HEAD_BYTES {
            let digits = format!(in alloc; "{byte:02x}")?;
            text.append(digits.as_bytes())?;
        } else if *byte == 0 {
            break;
        } else {
            text.push(*byte)?;
        }
    }
    text.push(b'\n')
}
