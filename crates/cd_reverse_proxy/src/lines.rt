//! The lines that the command says.
ghost use Rattle.std.specs.Prelude.{◌≡◌, ◌++◌, codes, IfOk};
ghost use Rattle.cd_outside.specs.Lines.{refused_line};
ghost use Rattle.cd_reverse_proxy.specs.Top.{served_line, unopened_line};

use cd_addr::write;
use cd_outside::Address;
use cd_text::{NoMemory, Text};
use std::alloc::Global;

/// How many requests were answered.
#[tactic(auto, unfolding(crate::specs::Top::served_line))]
pub fn served_line(alloc: Global, answered: u64) -> Result<Text, NoMemory>
    ensures { IfOk result (λ line. line ≡ served_line answered) }
{
    let line = format!(in alloc; "served {answered} requests\n")?;
    Ok(Text::from_string(line))
}

/// The address can't be opened.
pub fn unopened_line(alloc: Global, address: &Address) -> Result<Text, NoMemory>
    ensures { IfOk result (λ line. line ≡ unopened_line address.now) }
{
    let written = write(alloc, address)?;
    line_of(alloc, written.as_str())
}

fn line_of(alloc: Global, written: &str) -> Result<Text, NoMemory>
    ensures { IfOk result (λ line. line ≡ refused_line (codes "cannot open listen " ++ written.now)) }
{
    let line = format!(in alloc; "refused: cannot open listen {written}\n")?;
    Ok(Text::from_string(line))
}
