//! The lines of fields, which are written by rising name.
ghost use Rattle.std.specs.Prelude.{◌≡◌, ◌≤◌, ◌++◌, length, take, map, filter, true, OnOk, if◌then◌else◌};
ghost use Rattle.std.specs.List.{flat_map};
ghost use Rattle.std.specs.Str.{str_to_ascii_lowercase};
ghost use Rattle.cd_wire.specs.Lines.{line_field};
ghost use Rattle.cd_wire.specs.Render.{has_name, is_sent, by_name, titled, clean_byte, field_line};

use crate::fields::Field;
use crate::rendering::put;
use crate::texts::is_text;
use crate::usual::usual_lines;
use cd_text::NoMemory;
use std::alloc::Global;

// How many fields an answer mostly has at most. For so many no memory is taken.
const FEW_LINES: usize = 16;

// A field whose line is to be written.
#[derive(Clone, Copy, Debug)]
struct Line<'f> {
    name: &'f [u8],
    value: &'f [u8],
}

fn no_line<'f>() -> Line<'f> {
    Line {
        name: b"",
        value: b"",
    }
}

fn line_of<'f>(field: &'f Field<'_>) -> Line<'f>
    ensures { line_field result ≡ field.now }
{
    Line {
        name: field.name.as_slice(),
        value: field.value.as_slice(),
    }
}

fn has_name(field: &Field<'_>, name: &[u8]) -> bool
    requires { str_to_ascii_lowercase name.now ≡ name.now }
    ensures { result ≡ has_name name.now field.now }
{
    is_text(field.name.as_slice(), name)
}

fn is_sent(field: &Field<'_>) -> bool
    ensures { result ≡ is_sent field.now }
{
    !has_name(field, b"content-length")
        && !has_name(field, b"connection")
        && !has_name(field, b"transfer-encoding")
}

// Writes down the fields that are sent, and answers how many they are.
fn fill_sent<'f>(lines: &mut [Line<'f>], fields: &'f [Field<'_>]) -> usize
    requires { length fields.now ≤ length lines.old }
    ensures within { result ≤ length lines.new }
    ensures lines { map line_field (take result lines.new) ≡ filter is_sent fields.now }
{
    let mut count = 0;
    for field in fields {
        if is_sent(field) {
            lines[count] = line_of(field);
            count += 1;
        }
    }
    count
}

// Writes down all fields.
fn fill<'f>(lines: &mut [Line<'f>], fields: &'f [Field<'_>])
    requires { length fields.now ≤ length lines.old }
    ensures { map line_field (take (length fields.now) lines.new) ≡ fields.now }
{
    let mut count = 0;
    for field in fields {
        lines[count] = line_of(field);
        count += 1;
    }
}

// Raises the first letter of each word.
fn title(name: &mut [u8])
    ensures { name.new ≡ titled true name.old }
{
    let mut begins = true;
    for byte in name.iter_mut() {
        let ends = *byte == b'-';
        if begins {
            *byte = byte.to_ascii_uppercase();
        }
        begins = ends;
    }
}

// The name is written at once, and changed where it then is: a push for each byte would look for room each time.
fn put_titled(out: &mut Vec<u8>, name: &[u8]) -> Result<(), NoMemory>
    ensures { OnOk result (out.new.items ≡ out.old.items ++ titled true name.now) }
{
    let start = out.len();
    put(out, name)?;
    title(&mut out.as_mut_slice()[start..]);
    Ok(())
}

fn clean_byte(byte: u8) -> u8
    ensures { result ≡ clean_byte byte }
{
    if (byte < b' ' && byte != b'\t') || byte == 127 {
        b' '
    } else {
        byte
    }
}

fn clean(value: &mut [u8])
    ensures { value.new ≡ map clean_byte value.old }
{
    for byte in value.iter_mut() {
        *byte = clean_byte(*byte);
    }
}

// Like a name, the value is written at once.
fn put_clean(out: &mut Vec<u8>, value: &[u8]) -> Result<(), NoMemory>
    ensures { OnOk result (out.new.items ≡ out.old.items ++ map clean_byte value.now) }
{
    let start = out.len();
    put(out, value)?;
    clean(&mut out.as_mut_slice()[start..]);
    Ok(())
}

#[tactic(auto, unfolding(crate::specs::Render::field_line))]
fn put_line(out: &mut Vec<u8>, line: Line<'_>) -> Result<(), NoMemory>
    ensures { OnOk result (out.new.items ≡ out.old.items ++ field_line (line_field line.entry)) }
{
    put_titled(out, line.name)?;
    put(out, b": ")?;
    put_clean(out, line.value)?;
    put(out, b"\r\n")
}

fn put_in_order(out: &mut Vec<u8>, lines: &[Line<'_>]) -> Result<(), NoMemory>
    ensures { OnOk result (out.new.items ≡ out.old.items ++ flat_map field_line (map line_field lines.now)) }
{
    for line in lines {
        put_line(out, *line)?;
    }
    Ok(())
}

// Sorts the lines, for which 20 take no memory, and writes them.
fn put_sorted(alloc: Global, out: &mut Vec<u8>, lines: &mut [Line<'_>]) -> Result<(), NoMemory>
    ensures { OnOk result (out.new.items ≡ out.old.items ++ flat_map field_line (by_name (map line_field lines.old))) }
{
    lines.sort_by(alloc, |one, other| one.name.cmp(other.name))?;
    put_in_order(out, lines)
}

fn put_many_sent(alloc: Global, out: &mut Vec<u8>, fields: &[Field<'_>]) -> Result<(), NoMemory>
    ensures { OnOk result (out.new.items ≡ out.old.items ++ flat_map field_line (by_name (filter is_sent fields.now))) }
{
    let mut lines = Vec::from_elem(alloc, no_line(), fields.len())?;
    let lines = lines.as_mut_slice();
    let count = fill_sent(lines, fields);
    put_sorted(alloc, out, &mut lines[..count])
}

/// Writes the lines of the fields that an answer sends as they are given.
pub(crate) fn put_sent_lines(
    alloc: Global,
    out: &mut Vec<u8>,
    fields: &[Field<'_>],
) -> Result<(), NoMemory>
    ensures { OnOk result (out.new.items ≡ out.old.items ++ flat_map field_line (by_name (filter is_sent fields.now))) }
{
    match usual_lines(fields) {
        Some(lines) => put(out, lines),
        None => put_other_sent(alloc, out, fields),
    }
}

fn put_other_sent(alloc: Global, out: &mut Vec<u8>, fields: &[Field<'_>]) -> Result<(), NoMemory>
    ensures { OnOk result (out.new.items ≡ out.old.items ++ flat_map field_line (by_name (filter is_sent fields.now))) }
{
    if fields.len() > FEW_LINES {
        return put_many_sent(alloc, out, fields);
    }
    let mut lines = [no_line(); FEW_LINES];
    let count = fill_sent(&mut lines, fields);
    put_sorted(alloc, out, &mut lines[..count])
}

fn put_many(alloc: Global, out: &mut Vec<u8>, fields: &[Field<'_>]) -> Result<(), NoMemory>
    ensures { OnOk result (out.new.items ≡ out.old.items ++ flat_map field_line (by_name fields.now)) }
{
    let mut lines = Vec::from_elem(alloc, no_line(), fields.len())?;
    let lines = lines.as_mut_slice();
    fill(lines, fields);
    put_sorted(alloc, out, lines)
}

/// Writes the lines of fields, by rising name, and equal names in their order. Each word of a name begins with a capital, and
/// control bytes of values are sent as spaces.
pub fn put_lines(alloc: Global, out: &mut Vec<u8>, fields: &[Field<'_>]) -> Result<(), NoMemory>
    ensures { OnOk result (out.new.items ≡ out.old.items ++ flat_map field_line (by_name fields.now)) }
{
    if fields.len() > FEW_LINES {
        return put_many(alloc, out, fields);
    }
    let mut lines = [no_line(); FEW_LINES];
    fill(&mut lines, fields);
    put_sorted(alloc, out, &mut lines[..fields.len()])
}
