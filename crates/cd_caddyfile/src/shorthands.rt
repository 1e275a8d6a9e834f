//! Shorthands of placeholders.
ghost use Rattle.std.specs.Prelude.{◌≡◌, ℕ, List, [], ◌∷◌, ◌++◌, IfOk, OnOk, true, false};
ghost use Rattle.cd_caddyfile.specs.Shorthands.{long_name, spelled, after_brace};
ghost use Rattle.cd_caddyfile.specs.Spelling.{to_spell};

use cd_text::{NoMemory, Octets};
use std::alloc::Global;

/// A word with its shorthands as placeholders.
pub fn spelled(alloc: Global, text: &[u8]) -> Result<Octets, NoMemory>
    ensures { IfOk result (λ made. made ≡ spelled text.now) }
{
    let mut speller = Speller {
        made: Octets::new(alloc),
        name: Octets::new(alloc),
        is_in_brace: false,
    };
    for byte in text {
        speller.take(alloc, *byte)?;
    }
    speller.finish()
}

/// What has been made of a word.
#[derive(Drop)]
struct Speller {
    made: Octets,
    /// What follows the last `{`, where no `}` does.
    name: Octets,
    is_in_brace: bool,
}

impl Speller {
    fn take(&mut self, alloc: Global, byte: u8) -> Result<(), NoMemory>
        ensures { OnOk result ((rest : List ℕ) → self.old.made ++ to_spell self.old.is_in_brace self.old.name (byte ∷ rest)
            ≡ self.new.made ++ to_spell self.new.is_in_brace self.new.name rest) }
    {
        if self.is_in_brace {
            self.after_brace(alloc, byte)
        } else {
            self.outside(alloc, byte)
        }
    }

    fn outside(&mut self, alloc: Global, byte: u8) -> Result<(), NoMemory>
        requires { self.old.is_in_brace ≡ false }
        ensures { OnOk result ((rest : List ℕ) → self.old.made ++ spelled (byte ∷ rest)
            ≡ self.new.made ++ to_spell self.new.is_in_brace self.new.name rest) }
    {
        if byte == b'{' {
            self.is_in_brace = true;
            self.name = Octets::new(alloc);
            return Ok(());
        }
        self.made.push(byte)
    }

    fn after_brace(&mut self, alloc: Global, byte: u8) -> Result<(), NoMemory>
        requires { self.old.is_in_brace ≡ true }
        ensures { OnOk result ((rest : List ℕ) → self.old.made ++ after_brace self.old.name (byte ∷ rest)
            ≡ self.new.made ++ to_spell self.new.is_in_brace self.new.name rest) }
    {
        if byte == b'{' {
            push_brace(&mut self.made, self.name.as_slice())?;
            self.name = Octets::new(alloc);
            return Ok(());
        }
        if byte == b'}' {
            self.is_in_brace = false;
            return push_braces(&mut self.made, self.name.as_slice());
        }
        self.name.push(byte)
    }

    fn finish(self) -> Result<Octets, NoMemory>
        ensures { IfOk result (λ made. made ≡ self.made ++ to_spell self.is_in_brace self.name []) }
    {
        let Speller {
            made,
            name,
            is_in_brace,
        } = self;
        if is_in_brace {
            left_in_brace(made, name)
        } else {
            Ok(made)
        }
    }
}

fn left_in_brace(mut made: Octets, name: Octets) -> Result<Octets, NoMemory>
    ensures { IfOk result (λ whole. whole ≡ made ++ 123 ∷ name) }
{
    push_brace(&mut made, name.as_slice())?;
    Ok(made)
}

// A `{` and what follows it.
fn push_brace(made: &mut Octets, name: &[u8]) -> Result<(), NoMemory>
    ensures { OnOk result (made.new ≡ made.old ++ 123 ∷ name.now) }
{
    made.push(b'{')?;
    made.append(name)
}

// A placeholder.
fn push_braces(made: &mut Octets, name: &[u8]) -> Result<(), NoMemory>
    ensures { OnOk result (made.new ≡ made.old ++ 123 ∷ (long_name name.now ++ 125 ∷ [])) }
{
    push_brace(made, long_name(name))?;
    made.push(b'}')
}

// The name that a shorthand stands for.
fn long_name(name: &[u8]) -> &[u8]
    ensures { result.now ≡ long_name name.now }
{
    if name == b"method".as_slice() {
        b"http.request.method"
    } else if name == b"host".as_slice() {
        b"http.request.host"
    } else if name == b"path".as_slice() {
        b"http.request.uri.path"
    } else if name == b"query".as_slice() {
        b"http.request.uri.query"
    } else if name == b"uri".as_slice() {
        b"http.request.uri"
    } else {
        name
    }
}
