//! A text is read in one pass, with no other value beside the tree.
//!
//! Which fault comes first is known only at the end of the text, since of members with one name the last counts. So a number
//! that is not whole in range is marked: it stands in the tree as a negative zero, which no number that counts is read as.
ghost use Rattle.std.specs.Prelude.{◌≡◌, ◌≢◌, ◌<◌, None, Err, length, IfOk, IfErr, OnOk};
ghost use Rattle.json.specs.Json.{value, items, members};
ghost use Rattle.serde_json.specs.Data.{no_members};
ghost use Rattle.serde_json.specs.Read.{of_json, of_items, of_members, converted, read as read_text};
ghost use Rattle.cd_tree.specs.Marked.{BeginsTree, BeginsItems, BeginsMembers, IsTextOf, AreBytesOf, members_in};
ghost use Rattle.cd_tree.specs.Reading.{json_reading};

use crate::fault::TreeFault;
use crate::json_fault::JsonFault;
use crate::numbers::marked_number;
use crate::shared::Shared;
use crate::shared_text::SharedText;
use crate::tree::{Member, Tree};
use cd_text::{List, NoMemory, Text};
use json::{Reader, Scratch, Token};
use std::alloc::Global;
use std::collections::BTreeMap;

/// How many levels a text may nest that is JSON by the grammar of serde_json.
const MAX_LEVELS: usize = 127;

/// The tree of UTF-8 bytes that are JSON, with marked numbers, however deep and long it is.
pub(crate) fn read_marked(alloc: Global, bytes: &[u8]) -> Result<Tree, TreeFault>
    ensures ok { IfOk result (AreBytesOf bytes.now) }
    ensures err { IfErr result (λ fault. fault ≢ TreeFault.NoMemory → json_reading bytes.now ≡ Err fault) }
{
    let Ok(text) = simdutf8::basic::from_utf8(bytes) else {
        return Err(TreeFault::NotJson);
    };
    match text_marked(alloc, text) {
        Ok(tree) => Ok(tree),
        Err(JsonFault::NotJson) => Err(TreeFault::NotJson),
        Err(JsonFault::NoMemory) => Err(TreeFault::NoMemory),
    }
}

fn text_marked(alloc: Global, text: &str) -> Result<Tree, JsonFault>
    ensures ok { IfOk result (IsTextOf text.now) }
    ensures err { result ≡ Err JsonFault.NotJson → read_text text.now ≡ None }
{
    let mut scratch = Scratch::new(alloc);
    let mut reader = Reader::new(text, &mut scratch)?;
    let tree = value_marked(alloc, &mut reader, MAX_LEVELS)?;
    match reader.next() {
        Some(_) => Err(JsonFault::NotJson),
        None => Ok(tree),
    }
}

/// The next value.
#[cycle(marked)]
fn value_marked(alloc: Global, reader: &mut Reader<'_>, depth: usize) -> Result<Tree, JsonFault>
    ensures ok { IfOk result (BeginsTree depth reader.old reader.new) }
    ensures shorter { OnOk result (length reader.new < length reader.old) }
    ensures err { result ≡ Err JsonFault.NotJson → converted of_json (value depth reader.old) ≡ None }
{
    let token = reader.next().ok_or(JsonFault::NotJson)?;
    match token {
        Token::Null => Ok(Tree::Null),
        Token::Bool(truth) => Ok(Tree::Bool(truth)),
        Token::Number(digits) => match marked_number(digits) {
            Some(number) => Ok(Tree::Num(number)),
            None => Err(JsonFault::NotJson),
        },
        Token::String(text) => Ok(Tree::Text(SharedText::from_str(alloc, text)?)),
        Token::BeginArray => {
            if depth == 0 {
                return Err(JsonFault::NotJson);
            }
            let found = items_marked(alloc, reader, depth - 1)?;
            Ok(Tree::Items(Shared::new(alloc, found)?))
        }
        Token::BeginObject => {
            if depth == 0 {
                return Err(JsonFault::NotJson);
            }
            let found = members_marked(alloc, reader, depth - 1)?;
            Ok(Tree::Object(Shared::new(alloc, found)?))
        }
        Token::EndObject | Token::EndArray | Token::Key(_) | Token::Bad => Err(JsonFault::NotJson),
    }
}

/// The items of a list, after its bracket. It begins with room for one, since the lists of a deep text have one each: room that
/// is given back is left in pieces that they can't use.
#[cycle(marked)]
fn items_marked(
    alloc: Global,
    reader: &mut Reader<'_>,
    depth: usize,
) -> Result<List<Tree>, JsonFault>
    ensures ok { IfOk result (BeginsItems depth reader.old reader.new) }
    ensures shorter { OnOk result (length reader.new < length reader.old) }
    ensures err { result ≡ Err JsonFault.NotJson
        → converted of_items (items (value depth) (length reader.old) reader.old) ≡ None }
{
    let mut found = Vec::with_capacity(alloc, 1)?;
    while !reader.take_end_array() {
        let item = value_marked(alloc, reader, depth)?;
        found.push(item)?;
    }
    found.shrink_to_fit();
    Ok(List::from_vec(found))
}

/// The members of an object, after its brace.
#[cycle(marked)]
fn members_marked(
    alloc: Global,
    reader: &mut Reader<'_>,
    depth: usize,
) -> Result<List<Member>, JsonFault>
    ensures ok { IfOk result (BeginsMembers depth reader.old reader.new) }
    ensures shorter { OnOk result (length reader.new < length reader.old) }
    ensures err { result ≡ Err JsonFault.NotJson
        → converted (λ ms. of_members ms no_members)
        (members (value depth) (length reader.old) reader.old) ≡ None }
{
    let mut found = BTreeMap::new(alloc);
    while let Some(name) = reader.next_key()? {
        let key = String::from_str(alloc, name)?;
        let value = value_marked(alloc, reader, depth)?;
        drop(found.insert(key, value)?);
    }
    Ok(in_order(alloc, found)?)
}

/// The members, by their keys.
fn in_order(alloc: Global, entries: BTreeMap<String, Tree>) -> Result<List<Member>, NoMemory>
    ensures { IfOk result (λ found. found ≡ members_in entries.entries) }
{
    let mut found = List::from_vec(Vec::with_capacity(alloc, entries.len())?);
    for (key, value) in entries {
        let key = Text::from_string(key);
        found.push(Member { key, value })?;
    }
    Ok(found)
}
