//! Whether what the client of a connection was sent are the answers to its requests.
use cd_rows::{RowFault, bytes_of, find};
use cd_tree::Tree;
use std::alloc::Global;

/// What the client of a connection was sent.
#[derive(Clone, Copy, Debug, PartialEq, Eq)]
pub enum Sent {
    /// All answers, and nothing else.
    Whole,
    /// The first bytes of that.
    Part,
    /// Something else.
    Other,
}

// What is left to be looked at.
#[derive(Clone, Copy)]
struct Left<'s> {
    bytes: &'s [u8],
    // the answers are of this configuration or of a later one
    version: usize,
}

// What the next answer is.
enum Found<'s> {
    // It is there, and this follows.
    Answer(Left<'s>),
    // What was sent ends in it.
    Ends,
    Other,
}

/// Compares what was sent with the answers that the row lists. Each answer is a list: what it is under the first configuration, under
/// the second one, and so on. No answer may be of an older configuration than the one before it.
pub fn judged(alloc: Global, sent: &[u8], link: &Tree) -> Result<Sent, RowFault> {
    let Some(Tree::Items(answers)) = find(link, "answers") else {
        return Err(RowFault::Malformed("no list of answers"));
    };
    let mut left = Left {
        bytes: sent,
        version: 0,
    };
    for answer in answers.as_slice() {
        let Tree::Items(versions) = answer else {
            return Err(RowFault::Malformed("an answer that is no list"));
        };
        match next_answer(alloc, left, versions.as_slice())? {
            Found::Answer(next) => left = next,
            Found::Ends => return Ok(Sent::Part),
            Found::Other => return refused_half(alloc, left, link),
        }
    }
    if left.bytes.is_empty() {
        Ok(Sent::Whole)
    } else {
        refused_half(alloc, left, link)
    }
}

// What comes after the answers was sent for a half request, whose stream had failed, where the row says what that is.
fn refused_half<'s>(alloc: Global, left: Left<'s>, link: &Tree) -> Result<Sent, RowFault> {
    let Some(half) = find(link, "half") else {
        return Ok(Sent::Other);
    };
    if bytes_of(alloc, half)?.as_slice().starts_with(left.bytes) {
        Ok(Sent::Part)
    } else {
        Ok(Sent::Other)
    }
}

fn next_answer<'s>(
    alloc: Global,
    left: Left<'s>,
    versions: &[Tree],
) -> Result<Found<'s>, RowFault> {
    // What has only one answer says nothing of configurations.
    let first = if versions.len() == 1 { 0 } else { left.version };
    let mut ends = left.bytes.is_empty();
    for (version, tree) in versions.iter().enumerate() {
        if version >= first {
            let answer = bytes_of(alloc, tree)?;
            if let Some(bytes) = left.bytes.strip_prefix(answer.as_slice()) {
                let version = left.version.max(version);
                return Ok(Found::Answer(Left { bytes, version }));
            }
            ends = ends || answer.as_slice().starts_with(left.bytes);
        }
    }
    if ends {
        Ok(Found::Ends)
    } else {
        Ok(Found::Other)
    }
}
