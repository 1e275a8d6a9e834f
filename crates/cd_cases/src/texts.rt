//! Decimals, texts that are cut, and the order of texts.
//!
//!     {"decimal": NUMBER, "found": DIGITS}      the digits are read again, and have to be of this number
//!     {"number": TEXT, "found": DIGITS}         or "found": "none"
//!     {"parts": BYTES, "found": BYTES}          what is between the slashes, with a `|` after each part
//!     {"rising": [TEXT, ..], "gives": TRUTH}    whether each text is above those before it and equal to itself alone
use cd_rows::{Outcome, RowFault, bytes_at, find, only, says, text_of};
use cd_text::{List, NoMemory, Octets, Text, decimal, number_of, parts_of};
use cd_tree::{Num, Tree};
use std::alloc::Global;
use std::cmp::Ordering;

pub fn decimal_outcome(alloc: Global, row: &Tree) -> Result<Outcome, RowFault> {
    only(alloc, row, "decimal found")?;
    match find(row, "decimal") {
        Some(Tree::Num(number)) => digits_of(alloc, *number),
        _ => Err(RowFault::Malformed("no number")),
    }
}

fn digits_of(alloc: Global, number: Num) -> Result<Outcome, RowFault> {
    let digits = decimal(alloc, number.size)?;
    if number_of(digits.as_str()) == Some(number.size) {
        says(alloc, "found", digits.as_str())
    } else {
        says(alloc, "found", "digits of another number")
    }
}

pub fn number_outcome(alloc: Global, row: &Tree) -> Result<Outcome, RowFault> {
    only(alloc, row, "number found")?;
    match number_of(text_of(row, "number")?) {
        Some(number) => {
            let digits = format!(in alloc; "{number}")?;
            says(alloc, "found", digits.as_str())
        }
        None => says(alloc, "found", "none"),
    }
}

pub fn parts_outcome(alloc: Global, row: &Tree) -> Result<Outcome, RowFault> {
    only(alloc, row, "parts found")?;
    let bytes = bytes_at(alloc, row, "parts")?;
    match str::from_utf8(bytes.as_slice()) {
        Ok(text) => cut(alloc, text),
        Err(_) => Err(RowFault::Malformed("bytes that are no text")),
    }
}

fn cut(alloc: Global, text: &str) -> Result<Outcome, RowFault> {
    let mut bytes = Octets::new(alloc);
    for part in parts_of(alloc, text, '/')?.as_slice() {
        put_part(&mut bytes, part)?;
    }
    Ok(Outcome {
        member: "found",
        bytes,
    })
}

fn put_part(bytes: &mut Octets, part: &str) -> Result<(), NoMemory> {
    bytes.append(part.as_bytes())?;
    bytes.push(b'|')
}

pub fn rising_outcome(alloc: Global, row: &Tree) -> Result<Outcome, RowFault> {
    only(alloc, row, "rising gives")?;
    let Some(Tree::Items(items)) = find(row, "rising") else {
        return Err(RowFault::Malformed("no texts"));
    };
    let texts = texts_of(alloc, items.as_slice())?;
    if are_rising(texts.as_slice()) {
        says(alloc, "gives", "true")
    } else {
        says(alloc, "gives", "false")
    }
}

fn texts_of(alloc: Global, items: &[Tree]) -> Result<List<Text>, RowFault> {
    let mut texts = List::new(alloc);
    for item in items {
        match item {
            Tree::Text(text) => texts.push(text.copy(alloc)?)?,
            _ => return Err(RowFault::Malformed("no text")),
        }
    }
    Ok(texts)
}

fn are_rising<T: Ord>(texts: &[T]) -> bool {
    for (place, one) in texts.iter().enumerate() {
        for (other_place, other) in texts.iter().enumerate() {
            if !is_so(one, other, place.cmp(&other_place)) {
                return false;
            }
        }
    }
    true
}

// Whether the two are in this order, and equal and below one another as it says.
fn is_so<T: Ord>(one: &T, other: &T, order: Ordering) -> bool {
    let equal = order == Ordering::Equal;
    let below = order == Ordering::Less;
    one.cmp(other) == order && (one == other) == equal && (one < other) == below
}
