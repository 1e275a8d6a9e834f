ghost use Rattle.std.specs.Prelude.{◌≡◌, ◌≤◌, ◌-◌, ◌^◌, cond, length, min, map, decimal};
ghost use Rattle.json.specs.Print.{escape, quoted};
ghost use Rattle.json.specs.Run.{is_stop};
ghost use Rattle.cd_tree.specs.Lengths.{has_letter, longer, more, commas, weight, member_weight};
ghost use Rattle.cd_tree.specs.Tree.{text, number_text};

use crate::shared::Shared;
use crate::tree::{Member, Num, Tree};

/// How many bytes the compact text of a tree has, or the largest `usize` where that is more. It writes nothing.
pub fn text_length(tree: &Tree) -> usize
    ensures { result ≡ min (length (text tree.now)) (2 ^ 64 - 1) }
{
    tree_length(tree)
}

#[cycle(lengths)]
fn tree_length(tree: &Tree) -> usize
    ensures { result ≡ min (weight tree.now) (2 ^ 64 - 1) }
{
    match tree {
        Tree::Null => 4,
        Tree::Bool(value) => truth_length(*value),
        Tree::Num(number) => number_length(number),
        Tree::Text(text) => quoted_length(text.as_str()),
        Tree::Items(items) => items_length(items).max(1).saturating_add(1),
        Tree::Object(members) => members_length(members).max(1).saturating_add(1),
    }
}

/// Each item with a comma.
#[cycle(lengths)]
fn items_length(items: &Shared<Tree>) -> usize
    ensures { result ≡ min (commas (map weight items.now)) (2 ^ 64 - 1) }
{
    let mut length = 0usize;
    for item in items.as_slice() {
        length = length.saturating_add(tree_length(item)).saturating_add(1);
    }
    length
}

/// Each member with a comma.
#[cycle(lengths)]
fn members_length(members: &Shared<Member>) -> usize
    ensures { result ≡ min (commas (map member_weight members.now)) (2 ^ 64 - 1) }
{
    let mut length = 0usize;
    for member in members.as_slice() {
        let key = quoted_length(member.key.as_str()).saturating_add(1);
        let value = tree_length(&member.value);
        length = length
            .saturating_add(key)
            .saturating_add(value)
            .saturating_add(1);
    }
    length
}

fn truth_length(value: bool) -> usize
    ensures { result ≡ cond value 4 5 }
{
    if value { 4 } else { 5 }
}

/// A sign and the digits.
fn number_length(number: &Num) -> usize
    ensures { result ≡ min (length (number_text number.now)) (2 ^ 64 - 1) }
{
    if number.negative {
        digits_length(number.size).saturating_add(1)
    } else {
        digits_length(number.size)
    }
}

/// How many decimal digits a number has.
fn digits_length(number: u64) -> usize
    ensures exact { result ≡ length (decimal number) }
    ensures short { result ≤ 20 }
{
    let mut left = number;
    let mut length = 1usize;
    while left >= 10 {
        left /= 10;
        length = length.saturating_add(1);
    }
    length
}

/// A text with its quotes and escapes.
fn quoted_length(text: &str) -> usize
    ensures { result ≡ min (length (quoted text.now)) (2 ^ 64 - 1) }
{
    escaped_length(text.as_bytes()).saturating_add(2)
}

fn escaped_length(bytes: &[u8]) -> usize
    ensures { result ≡ min (length (escape bytes.now)) (2 ^ 64 - 1) }
{
    escapes_length(bytes).saturating_add(bytes.len())
}

/// By how much escapes make a text longer.
fn escapes_length(bytes: &[u8]) -> usize
    ensures { result ≡ min (more bytes.now) (2 ^ 64 - 1) }
{
    let mut length = 0usize;
    for byte in bytes {
        length = length.saturating_add(escape_length(*byte));
    }
    length
}

/// By how much the escape of a byte is longer than the byte: `\n` and its like by one, `\u0000` and its like by five.
fn escape_length(byte: u8) -> usize
    ensures { result ≡ longer byte }
{
    if !is_escaped(byte) {
        0
    } else if is_with_letter(byte) {
        1
    } else {
        5
    }
}

fn is_escaped(byte: u8) -> bool
    ensures { result ≡ is_stop byte }
{
    byte == b'"' || byte == b'\\' || byte < 32
}

fn is_with_letter(byte: u8) -> bool
    ensures { result ≡ has_letter byte }
{
    byte == b'"'
        || byte == b'\\'
        || byte == 8
        || byte == 12
        || byte == b'\n'
        || byte == b'\r'
        || byte == b'\t'
}
