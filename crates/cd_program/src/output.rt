ghost use Rattle.std.specs.Prelude.{◌≡◌, ◌<◌, ◌++◌, codes, length, IfOk};
ghost use Rattle.cd_outside.specs.Counts.{Rose};
ghost use Rattle.cd_program.specs.Configuration.{words_of};
ghost use Rattle.cd_serve.specs.Faults.{key_words};
ghost use Rattle.cd_tree.specs.Tree.{IsSound};
ghost use Rattle.cd_caddyfile.specs.Wording.{fault_words as caddyfile_words};
ghost use Rattle.cd_program.specs.Output.{Wrote, served_line, tree_line, unopened_line};
ghost use Rattle.cd_outside.specs.Lines.{refused_line};

use crate::refusal::{Refusal, fault_words};
use cd_caddyfile::CaddyfileFault;
use cd_host::say;
use cd_outside::{Given, Key, Sink};
use cd_serve::key_words;
use cd_text::{NoMemory, Text};
use cd_tree::{Tree, print};
use std::alloc::Global;

/// Writes a line.
pub fn say_line<O: Sink>(out: &mut O, line: &str) -> Given
    requires { 0 < length line.now }
    ensures said { Wrote line.now (result ≡ Given.All) (O.holds out.old) (O.holds out.new) }
    ensures unfailing { Wrote line.now (¬ (Rose (O.faults out.old) (O.faults out.new))) (O.holds out.old) (O.holds out.new) }
    ensures failed { result ≡ Given.Failed → Rose (O.faults out.old) (O.faults out.new) }
{
    say(out, line)
}

/// The last line of a run.
#[tactic(auto, unfolding(crate::specs::Output::served_line))]
pub fn served_line(alloc: Global, answered: u64, published: u32) -> Result<Text, NoMemory>
    ensures { IfOk result (λ line. line ≡ served_line answered published) }
{
    let line = format!(in alloc; "served {answered} requests under {published} configurations\n")?;
    Ok(Text::from_string(line))
}

// The line of a refusal in these words.
fn line_of(alloc: Global, words: &str) -> Result<Text, NoMemory>
    ensures { IfOk result (λ line. line ≡ refused_line words.now) }
{
    let line = format!(in alloc; "refused: {words}\n")?;
    Ok(Text::from_string(line))
}

/// The line that says why a configuration is refused. Out of memory has no words.
pub fn refused_line(alloc: Global, refusal: &Refusal) -> Result<Text, NoMemory>
    ensures { IfOk result (λ line. line ≡ refused_line (words_of refusal.now)) }
{
    match refusal {
        Refusal::NoTree(fault) => line_of(alloc, fault_words(*fault)),
        Refusal::Faulty(fault) => line_of(alloc, fault.words(alloc)?.as_str()),
        Refusal::NoMemory => line_of(alloc, ""),
    }
}

/// The line that says what the fault of a Caddyfile is.
pub fn faulty_line(alloc: Global, fault: &CaddyfileFault) -> Result<Text, NoMemory>
    ensures { IfOk result (λ line. line ≡ refused_line (caddyfile_words fault.now)) }
{
    line_of(alloc, cd_caddyfile::fault_words(alloc, fault)?.as_str())
}

/// The compact text of a configuration, as a line.
pub fn tree_line(alloc: Global, tree: &Tree) -> Result<Text, NoMemory>
    requires { IsSound tree.now }
    ensures { IfOk result (λ line. line ≡ tree_line tree.now) }
{
    let text = print(alloc, tree)?;
    let line = format!(in alloc; "{}\n", text.as_str())?;
    Ok(Text::from_string(line))
}

// What a line says of a key that can't be opened.
fn unopened_words(alloc: Global, key: &Key) -> Result<Text, NoMemory>
    ensures { IfOk result (λ words. words ≡ codes "cannot open " ++ key_words key.now) }
{
    let key = key_words(alloc, key)?;
    let words = format!(in alloc; "cannot open {}", key.as_str())?;
    Ok(Text::from_string(words))
}

/// The line for a key that can't be opened.
pub fn unopened_line(alloc: Global, key: &Key) -> Result<Text, NoMemory>
    ensures { IfOk result (λ line. line ≡ unopened_line key.now) }
{
    line_of(alloc, unopened_words(alloc, key)?.as_str())
}
