//! Texts of rows that are made of steps and words.
use cd_rows::{Outcome, RowFault};
use cd_text::{NoMemory, Octets, number_of, parts_of};
use std::alloc::Global;

/// The steps of a text, between which commas stand; those without words are left out.
pub fn steps_of(alloc: Global, text: &str) -> Result<Vec<&str>, RowFault> {
    let mut steps = Vec::new(alloc);
    for part in parts_of(alloc, text, ',')? {
        let step = part.trim();
        if !step.is_empty() {
            steps.push(step)?;
        }
    }
    Ok(steps)
}

/// The words of a step, between which spaces stand.
pub fn words_of(alloc: Global, step: &str) -> Result<Vec<&str>, RowFault> {
    Ok(step.split_whitespace().collect(alloc)?)
}

/// The text of bytes.
pub fn text_in(bytes: &[u8]) -> Result<&str, RowFault> {
    match str::from_utf8(bytes) {
        Ok(text) => Ok(text),
        Err(_) => Err(RowFault::Malformed("bytes that are no text")),
    }
}

/// The number that a word is.
pub fn number_in(word: &str) -> Result<u64, RowFault> {
    number_of(word).ok_or(RowFault::Malformed("a word that is no number"))
}

/// The number below 2^32 that a word is.
pub fn small_in(word: &str) -> Result<u32, RowFault> {
    match u32::try_from(number_in(word)?) {
        Ok(number) => Ok(number),
        Err(_) => Err(RowFault::Malformed("a number that is too large")),
    }
}

/// Adds a text at the end.
pub fn put(out: &mut Octets, text: &str) -> Result<(), NoMemory> {
    out.append(text.as_bytes())
}

/// Adds an answer, with a comma between it and the one before.
pub fn put_answer(out: &mut Octets, answer: &[u8]) -> Result<(), NoMemory> {
    if !out.is_empty() {
        put(out, ", ")?;
    }
    out.append(answer)
}

/// A call came to these bytes.
pub fn found(bytes: Octets) -> Outcome {
    Outcome {
        member: "found",
        bytes,
    }
}
