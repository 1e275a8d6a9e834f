//! What each line of a file does.
ghost use Rattle.std.specs.Prelude.{◌≡◌, ◌∷◌, ◌++◌, [], IfOk};
ghost use Rattle.std.specs.List.{list_any};
ghost use Rattle.std.specs.Str.{bytes_eq, is_utf8};
ghost use Rattle.cd_caddyfile.specs.Lines.{is_bare, is_left_open, is_bare_word, is_brace, texts, says, opens, with_last, by_last, line_of, is_bad_text, without_return};
ghost use Rattle.cd_caddyfile.specs.Words.{words};

use crate::line::Line;
use crate::word::{Mark, Word};
use crate::words::words_of;
use cd_text::{List, NoMemory, Octets};
use std::alloc::Global;

/// A line, and whether it is no text.
#[derive(Drop)]
pub struct ReadLine {
    pub line: Line,
    /// It is not UTF-8, or a quote is left open.
    pub is_bad_text: bool,
}

/// What a line does, without the byte that ends it.
pub fn read_line(alloc: Global, bytes: &[u8]) -> Result<ReadLine, NoMemory>
    ensures line { IfOk result (λ read. read.line ≡ line_of bytes.now) }
    ensures is_bad_text { IfOk result (λ read. read.is_bad_text ≡ is_bad_text bytes.now) }
{
    let words = words_of(alloc, bytes)?;
    let is_bad_text = !is_text(bytes) || has_open_quote(words.as_slice());
    let line = line_with(alloc, words)?;
    Ok(ReadLine { line, is_bad_text })
}

fn is_text(bytes: &[u8]) -> bool
    ensures { result ≡ is_utf8 bytes.now }
{
    match str::from_utf8(bytes) {
        Ok(_) => true,
        Err(_) => false,
    }
}

fn has_open_quote(words: &[Word]) -> bool
    ensures { result ≡ list_any (λ w. is_left_open w.mark) words.now }
{
    words.iter().any(|word| is_left_open(word.mark))
}

fn is_left_open(mark: Mark) -> bool
    ensures { result ≡ is_left_open mark }
{
    match mark {
        Mark::Bare => false,
        Mark::Quoted => false,
        Mark::Open => true,
    }
}

fn line_with(alloc: Global, mut words: List<Word>) -> Result<Line, NoMemory>
    ensures { IfOk result (λ line. line ≡ by_last [] words) }
{
    match words.pop() {
        None => Ok(Line::Empty),
        Some(last) => with_last(alloc, words, last),
    }
}

// The last word decides.
fn with_last(alloc: Global, mut before: List<Word>, last: Word) -> Result<Line, NoMemory>
    ensures { IfOk result (λ line. line ≡ with_last before last) }
{
    if is_bare_word(b"{", &last) {
        return opens(alloc, before);
    }
    if is_bare_word(b"}", &last) && before.len() == 0 {
        return Ok(Line::Closes);
    }
    before.push(last)?;
    says(alloc, before)
}

fn opens(alloc: Global, words: List<Word>) -> Result<Line, NoMemory>
    ensures { IfOk result (λ line. line ≡ opens words) }
{
    if has_brace(words.as_slice()) {
        return Ok(Line::Misplaced);
    }
    let texts = texts(alloc, words)?;
    Ok(Line::Opens(texts))
}

fn says(alloc: Global, words: List<Word>) -> Result<Line, NoMemory>
    ensures { IfOk result (λ line. line ≡ says words) }
{
    if has_brace(words.as_slice()) {
        return Ok(Line::Misplaced);
    }
    let texts = texts(alloc, words)?;
    Ok(Line::Says(texts))
}

fn texts(alloc: Global, words: List<Word>) -> Result<List<Octets>, NoMemory>
    ensures { IfOk result (λ made. made ≡ texts words) }
{
    let mut made = List::new(alloc);
    for word in words.into_vec() {
        let Word { text, mark: _ } = word;
        made.push(text)?;
    }
    Ok(made)
}

fn has_brace(words: &[Word]) -> bool
    ensures { result ≡ list_any is_brace words.now }
{
    words.iter().any(|word| is_brace(word))
}

fn is_brace(word: &Word) -> bool
    ensures { result ≡ is_brace word.now }
{
    is_bare_word(b"{", word) || is_bare_word(b"}", word)
}

fn is_bare_word(text: &[u8], word: &Word) -> bool
    ensures { result ≡ is_bare_word text.now word.now }
{
    is_bare(word.mark) && word.text.equals(text)
}

fn is_bare(mark: Mark) -> bool
    ensures { result ≡ is_bare mark }
{
    match mark {
        Mark::Bare => true,
        Mark::Quoted => false,
        Mark::Open => false,
    }
}

/// A line without the CR at its end.
pub fn without_return(line: &[u8]) -> &[u8]
    ensures { result.now ≡ without_return line.now }
{
    match line {
        [before @ .., b'\r'] => before,
        _ => line,
    }
}
