//! Texts that others have written, as the names of files, for standard error.
ghost use Rattle.std.specs.Prelude.{◌≡◌, ◌++◌, string_bytes, IfOk, OnOk};
ghost use Rattle.cd_stdio.specs.Escaping.{escaped, escaped_char};

use cd_text::{NoMemory, Text};
use std::alloc::Global;

/// The text with each control character as an escape, as `\u{1b}`, so that a line has no other end than its own, and no terminal
/// obeys a name.
pub(crate) fn escaped(alloc: Global, text: &str) -> Result<Text, NoMemory>
    ensures { IfOk result (λ line. line ≡ escaped text.now) }
{
    Ok(Text::from_string(escaped_string(alloc, text)?))
}

fn escaped_string(alloc: Global, text: &str) -> Result<String, NoMemory>
    ensures { IfOk result (λ line. string_bytes line ≡ escaped text.now) }
{
    let mut line = String::new(alloc);
    for c in text.chars() {
        push_escaped(alloc, c, &mut line)?;
    }
    Ok(line)
}

fn push_escaped(alloc: Global, c: char, line: &mut String) -> Result<(), NoMemory>
    ensures { OnOk result (string_bytes line.new ≡ string_bytes line.old ++ escaped_char c) }
{
    if c.is_control() {
        let number = u32::from(c);
        let escape = format!(in alloc; "\\u{{{number:x}}}")?;
        line.push_str(escape.as_str())?;
    } else {
        line.push(c)?;
    }
    Ok(())
}
