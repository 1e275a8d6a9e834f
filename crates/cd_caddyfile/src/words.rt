ghost use Rattle.std.specs.Prelude.{◌≡◌, ℕ, List, [], ◌∷◌, ◌++◌, IfOk, OnOk};
ghost use Rattle.cd_caddyfile.specs.Words.{word, words, bare, quoted, escaped, is_blank};
ghost use Rattle.cd_caddyfile.specs.Still.{still};
ghost use Rattle.cd_caddyfile.specs.declared.reading.Reading.TheVariants as mode;

use crate::reading::Reading;
use crate::word::{Mark, Word};
use cd_text::{List, NoMemory, Octets};
use std::alloc::Global;
use std::mem::replace;

/// The words of a line.
pub fn words_of(alloc: Global, line: &[u8]) -> Result<List<Word>, NoMemory>
    ensures { IfOk result (λ found. found ≡ words line.now) }
{
    let mut reader = LineReader {
        words: List::new(alloc),
        text: Octets::new(alloc),
        at: Reading::Between,
    };
    for byte in line {
        reader.take(alloc, *byte)?;
    }
    reader.finish()
}

/// What has been read of a line.
#[derive(Drop)]
struct LineReader {
    words: List<Word>,
    /// What has been read of the last word.
    text: Octets,
    at: Reading,
}

impl LineReader {
    // Reads one more byte.
    fn take(&mut self, alloc: Global, byte: u8) -> Result<(), NoMemory>
        ensures { OnOk result ((rest : List ℕ) → self.old.words ++ still self.old.at self.old.text (byte ∷ rest) ≡ self.new.words ++ still self.new.at self.new.text rest) }
    {
        match self.at {
            Reading::Between => self.between(alloc, byte),
            Reading::Bare => self.bare(alloc, byte),
            Reading::Quoted => self.quoted(alloc, byte),
            Reading::Escaped => self.escaped(byte),
            Reading::Over => Ok(()),
        }
    }

    fn between(&mut self, alloc: Global, byte: u8) -> Result<(), NoMemory>
        requires { self.old.at ≡ mode.Between }
        ensures { OnOk result ((rest : List ℕ) → self.old.words ++ words (byte ∷ rest) ≡ self.new.words ++ still self.new.at self.new.text rest) }
    {
        if is_blank(byte) {
            return Ok(());
        }
        if byte == b'#' {
            self.at = Reading::Over;
            return Ok(());
        }
        self.text = Octets::new(alloc);
        if byte == b'"' {
            self.at = Reading::Quoted;
            return Ok(());
        }
        self.at = Reading::Bare;
        self.text.push(byte)
    }

    fn bare(&mut self, alloc: Global, byte: u8) -> Result<(), NoMemory>
        requires { self.old.at ≡ mode.Bare }
        ensures { OnOk result ((rest : List ℕ) → self.old.words ++ bare self.old.text (byte ∷ rest) ≡ self.new.words ++ still self.new.at self.new.text rest) }
    {
        if is_blank(byte) {
            return self.end_word(alloc, Mark::Bare);
        }
        self.text.push(byte)
    }

    fn quoted(&mut self, alloc: Global, byte: u8) -> Result<(), NoMemory>
        requires { self.old.at ≡ mode.Quoted }
        ensures { OnOk result ((rest : List ℕ) → self.old.words ++ quoted self.old.text (byte ∷ rest) ≡ self.new.words ++ still self.new.at self.new.text rest) }
    {
        if byte == b'"' {
            return self.end_word(alloc, Mark::Quoted);
        }
        if byte == b'\\' {
            self.at = Reading::Escaped;
            return Ok(());
        }
        self.text.push(byte)
    }

    fn escaped(&mut self, byte: u8) -> Result<(), NoMemory>
        requires { self.old.at ≡ mode.Escaped }
        ensures { OnOk result ((rest : List ℕ) → self.old.words ++ escaped self.old.text (byte ∷ rest) ≡ self.new.words ++ still self.new.at self.new.text rest) }
    {
        self.at = Reading::Quoted;
        if byte == b'"' {
            return self.text.push(b'"');
        }
        self.text.push(b'\\')?;
        self.text.push(byte)
    }

    // The word that was read is over.
    fn end_word(&mut self, alloc: Global, mark: Mark) -> Result<(), NoMemory>
        ensures words { OnOk result (self.new.words ≡ self.old.words ++ word self.old.text mark ∷ []) }
        ensures at { OnOk result (self.new.at ≡ mode.Between) }
    {
        let text = replace(&mut self.text, Octets::new(alloc));
        self.at = Reading::Between;
        self.words.push(Word { text, mark })
    }

    // The line is over.
    fn finish(self) -> Result<List<Word>, NoMemory>
        ensures { IfOk result (λ found. found ≡ self.words ++ still self.at self.text []) }
    {
        let LineReader { words, text, at } = self;
        match at {
            Reading::Between => Ok(words),
            Reading::Bare => with_word(words, text, Mark::Bare),
            Reading::Quoted => with_word(words, text, Mark::Open),
            Reading::Escaped => left_escaped(words, text),
            Reading::Over => Ok(words),
        }
    }
}

fn with_word(mut words: List<Word>, text: Octets, mark: Mark) -> Result<List<Word>, NoMemory>
    ensures { IfOk result (λ found. found ≡ words ++ word text mark ∷ []) }
{
    words.push(Word { text, mark })?;
    Ok(words)
}

fn left_escaped(words: List<Word>, mut text: Octets) -> Result<List<Word>, NoMemory>
    ensures { IfOk result (λ found. found ≡ words ++ escaped text []) }
{
    text.push(b'\\')?;
    with_word(words, text, Mark::Open)
}

fn is_blank(byte: u8) -> bool
    ensures { result ≡ is_blank byte }
{
    byte == b' ' || byte == b'\t'
}
