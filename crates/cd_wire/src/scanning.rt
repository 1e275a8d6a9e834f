//! Where heads end: a head that comes in pieces is parsed once its last line has come, and not at each byte.
ghost use Rattle.std.specs.Prelude.{◌≡◌, ◌<◌, ◌≤◌, ◌⊎◌, true, length, slice_index, take};
ghost use Rattle.cd_wire.specs.declared.scanning.Line.TheVariants as place;
ghost use Rattle.cd_wire.specs.Scanning.{step, scan, is_over};

use crate::texts::rest_from;
use memchr::memchr;

/// Where the bytes of a head stand.
#[derive(Clone, Copy, Debug, PartialEq, Eq, Drop)]
pub(crate) enum Line {
    /// Nothing came but empty lines.
    Blank,
    /// Inside a line.
    Inside,
    /// Behind the LF of a line.
    Ended,
    /// Behind the LF of a line and a CR.
    EndedCr,
    /// An empty line came behind another one.
    Over,
}

/// How far the end of a head was looked for.
#[derive(Clone, Copy, Debug)]
pub(crate) struct Scanned {
    /// How many bytes were looked at.
    pub count: usize,
    /// Where they end.
    pub line: Line,
}

pub(crate) fn is_over(line: Line) -> bool
    ensures { result ≡ is_over line }
{
    match line {
        Line::Over => true,
        Line::Blank | Line::Inside | Line::Ended | Line::EndedCr => false,
    }
}

// Where they stand after one more byte.
fn step(line: Line, byte: u8) -> Line
    ensures { result ≡ step line byte }
{
    match line {
        Line::Blank => {
            if byte == b'\n' || byte == b'\r' {
                Line::Blank
            } else {
                Line::Inside
            }
        }
        Line::Inside => {
            if byte == b'\n' {
                Line::Ended
            } else {
                Line::Inside
            }
        }
        Line::Ended => {
            if byte == b'\n' {
                Line::Over
            } else if byte == b'\r' {
                Line::EndedCr
            } else {
                Line::Inside
            }
        }
        Line::EndedCr => {
            if byte == b'\n' {
                Line::Over
            } else {
                Line::Inside
            }
        }
        Line::Over => Line::Over,
    }
}

// How many bytes of a line come before its LF, or how many there are.
#[tactic(auto, using(crate::proofs::ScanLemmas::line_goes_on))]
fn line_end(bytes: &[u8]) -> usize
    ensures within { result ≤ length bytes.now }
    ensures inside { scan place.Inside (take result bytes.now) ≡ place.Inside }
    ensures stops { result < length bytes.now → slice_index bytes.now result ≡ 10 }
{
    memchr(b'\n', bytes).unwrap_or(bytes.len())
}

// How many bytes leave the line as it is. Outside a line the next byte is looked at by itself.
fn unchanged(line: Line, bytes: &[u8]) -> usize
    ensures within { result ≤ length bytes.now }
    ensures stays { scan line (take result bytes.now) ≡ line }
{
    match line {
        Line::Inside => line_end(bytes),
        Line::Blank | Line::Ended | Line::EndedCr | Line::Over => 0,
    }
}

/// Looks at more bytes, up to the end of the head or of the bytes.
#[tactic(auto, using(crate::proofs::ScanLemmas::scan_more))]
pub(crate) fn scan_on(bytes: &[u8], from: Scanned) -> Scanned
    requires within { from.count ≤ length bytes.now }
    requires stands { from.line ≡ scan place.Blank (take from.count bytes.now) }
    ensures within { result.count ≤ length bytes.now }
    ensures stands { result.line ≡ scan place.Blank (take result.count bytes.now) }
    ensures all { (is_over result.line ≡ true) ⊎ (result.count ≡ length bytes.now) }
{
    let mut count = from.count;
    let mut line = from.line;
    while count < bytes.len() {
        if is_over(line) {
            return Scanned { count, line };
        }
        line = step(line, bytes[count]);
        count += 1;
        count += unchanged(line, rest_from(bytes, count));
    }
    Scanned { count, line }
}
