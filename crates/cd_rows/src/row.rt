//! What rows are made of: members, bytes, trees and paths.
ghost use Rattle.std.specs.Prelude.{IfOk, IfSome};
ghost use Rattle.std.specs.Option.{option_copied};
ghost use Rattle.cd_tree.specs.Tree.{IsSound};

use cd_path::look;
use cd_text::{List, NoMemory, Octets, Text, decimal, parts_of};
use cd_tree::{Fields, Num, Path, Place, Tree, read};
use std::alloc::{AllocError, AllocFailed, Global};

/// Why a row says nothing.
#[derive(Clone, Copy, Debug, PartialEq, Eq)]
pub enum RowFault {
    /// It is no row, in these words.
    Malformed(&'static str),
    NoMemory,
}

impl From<NoMemory> for RowFault {
    fn from(_: NoMemory) -> RowFault {
        RowFault::NoMemory
    }
}

impl From<AllocError> for RowFault {
    fn from(_: AllocError) -> RowFault {
        RowFault::NoMemory
    }
}

impl<T: Drop> From<AllocFailed<T>> for RowFault {
    fn from(_: AllocFailed<T>) -> RowFault {
        RowFault::NoMemory
    }
}

/// The tree of a text.
pub fn tree_of(alloc: Global, text: &[u8]) -> Result<Tree, RowFault>
    ensures { IfOk result IsSound }
{
    match read(alloc, text) {
        Ok(tree) => Ok(tree),
        Err(_) => Err(RowFault::Malformed("a text that is no tree")),
    }
}

/// Whether there is a member of this name, of whatever value.
pub fn has(row: &Tree, name: &str) -> bool {
    find(row, name).is_some()
}

/// The value of a member, to be looked at alone.
pub fn find<'a>(row: &'a Tree, name: &str) -> Option<&'a Tree> {
    let Tree::Object(members) = row else {
        return None;
    };
    for member in members.as_slice() {
        if member.key.equals(name) {
            return Some(&member.value);
        }
    }
    None
}

/// The value of a member, which may be null.
pub fn member<'a>(alloc: Global, row: &'a Tree, name: &str) -> Result<Option<&'a Tree>, RowFault>
    ensures { IsSound row.now → IfOk result (λ found. IfSome (option_copied found) IsSound) }
{
    let path = Path::root(alloc).member(alloc, name)?;
    match look(row, &path) {
        Ok(found) => Ok(found),
        Err(_) => Err(RowFault::Malformed("no object")),
    }
}

/// The value of a member that has to be there.
pub fn needed<'a>(alloc: Global, row: &'a Tree, name: &str) -> Result<&'a Tree, RowFault>
    ensures { IsSound row.now → IfOk result (λ found. IsSound found.now) }
{
    match member(alloc, row, name)? {
        Some(value) => Ok(value),
        None => Err(RowFault::Malformed("a member is missing")),
    }
}

/// Refuses a row with members of other names than these, which single spaces join.
pub fn only(alloc: Global, row: &Tree, names: &str) -> Result<(), RowFault> {
    match Fields::over(alloc, row, &Place::top(), names) {
        Ok(_) => Ok(()),
        Err(_) => Err(RowFault::Malformed("a member that this kind has not")),
    }
}

/// The text of a member.
pub fn text_of<'a>(row: &'a Tree, name: &str) -> Result<&'a str, RowFault> {
    match find(row, name) {
        Some(Tree::Text(text)) => Ok(text.as_str()),
        _ => Err(RowFault::Malformed("a text is missing")),
    }
}

/// The bytes of a member.
pub fn bytes_at(alloc: Global, row: &Tree, name: &str) -> Result<Octets, RowFault> {
    match find(row, name) {
        Some(value) => bytes_of(alloc, value),
        None => Err(RowFault::Malformed("bytes are missing")),
    }
}

/// The bytes that a value stands for: a piece, or a list of pieces.
pub fn bytes_of(alloc: Global, value: &Tree) -> Result<Octets, RowFault> {
    let mut out = Octets::new(alloc);
    match value {
        Tree::Items(pieces) => put_pieces(alloc, &mut out, pieces.as_slice())?,
        piece => put_piece(alloc, &mut out, piece)?,
    }
    Ok(out)
}

fn put_pieces(alloc: Global, out: &mut Octets, pieces: &[Tree]) -> Result<(), RowFault> {
    for piece in pieces {
        put_piece(alloc, out, piece)?;
    }
    Ok(())
}

// A piece is a text, a byte as its number, or an object: one of these as `repeat` and how often it is there as `times`, or a list
// as `each`, which is there so often too, each time with a number in the place of null: from 0 or from `from` up, or down to it
// where `falling` is true.
fn put_piece(alloc: Global, out: &mut Octets, piece: &Tree) -> Result<(), RowFault> {
    match piece {
        Tree::Object(_) => put_object(alloc, out, piece),
        _ => put_plain(out, piece),
    }
}

fn put_object(alloc: Global, out: &mut Octets, piece: &Tree) -> Result<(), RowFault> {
    only(alloc, piece, "repeat each times from falling")?;
    let Some(Tree::Num(times)) = find(piece, "times") else {
        return Err(RowFault::Malformed("bytes without times"));
    };
    match find(piece, "repeat") {
        Some(again) => put_repeated(out, again, times.size),
        None => put_each(alloc, out, piece, times.size),
    }
}

fn put_repeated(out: &mut Octets, again: &Tree, times: u64) -> Result<(), RowFault> {
    for _ in 0..times {
        put_plain(out, again)?;
    }
    Ok(())
}

fn put_each(alloc: Global, out: &mut Octets, piece: &Tree, times: u64) -> Result<(), RowFault> {
    let Some(Tree::Items(parts)) = find(piece, "each") else {
        return Err(RowFault::Malformed("bytes with times alone"));
    };
    let from = first_of(piece)?;
    let falling = is_true(piece, "falling")?;
    for time in 0..times {
        let step = if falling { times - 1 - time } else { time };
        put_numbered(alloc, out, parts.as_slice(), from.saturating_add(step))?;
    }
    Ok(())
}

// The least number of an `each`.
fn first_of(piece: &Tree) -> Result<u64, RowFault> {
    match find(piece, "from") {
        None => Ok(0),
        Some(Tree::Num(number)) => Ok(number.size),
        Some(_) => Err(RowFault::Malformed("no number")),
    }
}

fn put_numbered(
    alloc: Global,
    out: &mut Octets,
    parts: &[Tree],
    time: u64,
) -> Result<(), RowFault> {
    for part in parts {
        match part {
            Tree::Null => put_number(alloc, out, time)?,
            part => put_plain(out, part)?,
        }
    }
    Ok(())
}

fn put_number(alloc: Global, out: &mut Octets, number: u64) -> Result<(), RowFault> {
    let digits = decimal(alloc, number)?;
    Ok(out.append(digits.as_str().as_bytes())?)
}

fn put_plain(out: &mut Octets, piece: &Tree) -> Result<(), RowFault> {
    match piece {
        Tree::Text(text) => Ok(out.append(text.as_str().as_bytes())?),
        Tree::Num(number) => put_byte(out, *number),
        _ => Err(RowFault::Malformed("no bytes")),
    }
}

fn put_byte(out: &mut Octets, number: Num) -> Result<(), RowFault> {
    match u8::try_from(number.size) {
        Ok(byte) => Ok(out.push(byte)?),
        Err(_) => Err(RowFault::Malformed("no byte")),
    }
}

/// A truth; one that is absent is false.
pub fn is_true(row: &Tree, name: &str) -> Result<bool, RowFault> {
    match find(row, name) {
        None => Ok(false),
        Some(Tree::Bool(truth)) => Ok(*truth),
        Some(_) => Err(RowFault::Malformed("neither true nor false")),
    }
}

/// A number below 2^16.
pub fn number_of(tree: &Tree) -> Result<u16, RowFault> {
    let Tree::Num(number) = tree else {
        return Err(RowFault::Malformed("no number"));
    };
    match u16::try_from(number.size) {
        Ok(number) => Ok(number),
        Err(_) => Err(RowFault::Malformed("a number that is too large")),
    }
}

/// The path of a member: a text whose parts slashes join, or a list of the parts. The empty text is the empty path. In a list
/// an object with `repeat` and `times` stands for so many equal parts.
pub fn path_at(alloc: Global, row: &Tree, name: &str) -> Result<Path, RowFault> {
    match find(row, name) {
        Some(Tree::Text(text)) => Ok(cut_path(alloc, text.as_str())?),
        Some(Tree::Items(parts)) => path_of(alloc, parts.as_slice()),
        _ => Err(RowFault::Malformed("a path is missing")),
    }
}

fn cut_path(alloc: Global, text: &str) -> Result<Path, NoMemory> {
    let mut parts = List::new(alloc);
    if !text.is_empty() {
        for part in parts_of(alloc, text, '/')?.as_slice() {
            parts.push(Text::from_str(alloc, part)?)?;
        }
    }
    Ok(Path { parts })
}

fn path_of(alloc: Global, trees: &[Tree]) -> Result<Path, RowFault> {
    let mut parts = List::new(alloc);
    for tree in trees {
        match tree {
            Tree::Object(_) => put_equal_parts(alloc, &mut parts, tree)?,
            _ => parts.push(part_of(alloc, tree)?)?,
        }
    }
    Ok(Path { parts })
}

fn put_equal_parts(alloc: Global, parts: &mut List<Text>, tree: &Tree) -> Result<(), RowFault> {
    only(alloc, tree, "repeat times")?;
    let Some(Tree::Num(times)) = find(tree, "times") else {
        return Err(RowFault::Malformed("a part without times"));
    };
    let part = text_of(tree, "repeat")?;
    for _ in 0..times.size {
        parts.push(Text::from_str(alloc, part)?)?;
    }
    Ok(())
}

fn part_of(alloc: Global, tree: &Tree) -> Result<Text, RowFault> {
    match tree {
        Tree::Text(text) => Ok(text.copy(alloc)?),
        _ => Err(RowFault::Malformed("a part that is no text")),
    }
}
