ghost use Rattle.std.specs.Prelude.{◌≡◌, ◌++◌, IfOk, OnOk, string_bytes};
ghost use Rattle.cd_tree.specs.Path.{written};
ghost use Rattle.cd_module.specs.Words.{front, about_at, rest, words};

use crate::fault::{LoadKind, Refusal};
use cd_text::{NoMemory, Text};
use cd_tree::Path;
use std::alloc::Global;

fn front(kind: LoadKind) -> &'static str
    ensures { result.now ≡ front kind }
{
    match kind {
        LoadKind::UnknownModule => "unknown module ",
        LoadKind::UnknownMember => "unknown member at ",
        LoadKind::WrongKind => "wrong kind at ",
        LoadKind::Missing => "missing at ",
        LoadKind::BadValue => "bad value at ",
        LoadKind::BadAddress => "bad address at ",
        LoadKind::RepeatedAddress => "repeated address ",
        LoadKind::RepeatedId => "repeated id ",
        LoadKind::LimitReached => "limit reached: ",
        LoadKind::NamedCycle => "named route cycle at ",
    }
}

fn add_path(text: &mut String, alloc: Global, path: &Path) -> Result<(), NoMemory>
    ensures { OnOk result (string_bytes text.new ≡ string_bytes text.old ++ written path.now) }
{
    let path = path.to_text(alloc)?;
    text.push_str(path.as_str())?;
    Ok(())
}

// What is refused, and where.
fn add_about(text: &mut String, alloc: Global, refusal: &Refusal) -> Result<(), NoMemory>
    ensures { OnOk result (string_bytes text.new ≡ string_bytes text.old ++ about_at refusal.now.about refusal.now.at) }
{
    text.push_str(refusal.about.as_str())?;
    text.push_str(" at ")?;
    add_path(text, alloc, &refusal.at)
}

// What follows the front.
fn add_rest(text: &mut String, alloc: Global, refusal: &Refusal) -> Result<(), NoMemory>
    ensures { OnOk result (string_bytes text.new ≡ string_bytes text.old ++ rest refusal.now.kind refusal.now) }
{
    match refusal.kind {
        LoadKind::UnknownModule => add_about(text, alloc, refusal),
        LoadKind::UnknownMember => add_path(text, alloc, &refusal.at),
        LoadKind::WrongKind => add_path(text, alloc, &refusal.at),
        LoadKind::Missing => add_path(text, alloc, &refusal.at),
        LoadKind::BadValue => add_path(text, alloc, &refusal.at),
        LoadKind::BadAddress => add_path(text, alloc, &refusal.at),
        LoadKind::RepeatedAddress => add_about(text, alloc, refusal),
        LoadKind::RepeatedId => {
            add_about(text, alloc, refusal)?;
            text.push_str(" and ")?;
            add_path(text, alloc, &refusal.other)
        }
        LoadKind::LimitReached => Ok(text.push_str(refusal.about.as_str())?),
        LoadKind::NamedCycle => add_path(text, alloc, &refusal.at),
    }
}

impl Refusal {
    /// The words that say it.
    pub fn words(&self, alloc: Global) -> Result<Text, NoMemory>
        ensures { IfOk result (λ made. made ≡ words self.now) }
    {
        let mut text = String::from_str(alloc, front(self.kind))?;
        add_rest(&mut text, alloc, self)?;
        Ok(Text::from_string(text))
    }
}
