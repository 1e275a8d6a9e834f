ghost use Rattle.std.specs.Prelude.{◌≡◌};
ghost use Rattle.std.specs.List.{list_any};
ghost use Rattle.cd_text.specs.Gives.{Gives};
ghost use Rattle.cd_log.specs.Logging.{access_said, is_access, log_members, named_log, takes_access, without_effect};

use crate::writer::Writer;
use cd_module::{LoadFault, Named, Settings, UnreadObject, fields_of, optional};
use cd_text::{List, Text};
use cd_tree::{Fields, Place, Tree};
use std::alloc::Global;

/// The settings of a log (Caddy, JSON Config Structure, `logging.logs`).
#[derive(Debug, Drop)]
pub struct Log {
    /// Its name among the logs.
    pub name: Text,
    /// Where its lines go: to standard error, unless that is said.
    pub writer: Writer,
    /// Whether it takes the lines of access logs.
    pub access: bool,
}

// The entry names the logger of access lines, or one of those that begin so.
fn is_access(entry: &Text) -> bool
    ensures { result ≡ is_access entry.now }
{
    entry.as_str().as_bytes().starts_with(b"http.log.access")
}

fn any_is_access(entries: &[Text]) -> bool
    ensures { result ≡ list_any is_access entries.now }
{
    entries.iter().any(|entry| is_access(entry))
}

fn takes_access(include: &[Text], exclude: &[Text]) -> bool
    ensures { result ≡ takes_access include.now exclude.now }
{
    (include.is_empty() || any_is_access(include)) && !any_is_access(exclude)
}

// The members that have no effect so far.
#[tactic(auto, unfolding(crate::specs::Logging::without_effect))]
fn read_without_effect(alloc: Global, fields: &Fields<'_>, at: &Place<'_>) -> Result<(), LoadFault>
    ensures { Gives LoadFault.NoMemory result (without_effect fields.now.members.now at.now) }
{
    let _ = optional::<UnreadObject>(alloc, fields, at, "encoder")?;
    let _ = optional::<Text>(alloc, fields, at, "level")?;
    Ok(())
}

// Whether the lines of access logs are taken.
#[tactic(auto, unfolding(crate::specs::Logging::access_said))]
fn read_access(alloc: Global, fields: &Fields<'_>, at: &Place<'_>) -> Result<bool, LoadFault>
    ensures { Gives LoadFault.NoMemory result (access_said fields.now.members.now at.now) }
{
    let include = optional::<List<Text>>(alloc, fields, at, "include")?;
    let exclude = optional::<List<Text>>(alloc, fields, at, "exclude")?;
    let include = include.unwrap_or(List::new(alloc));
    let exclude = exclude.unwrap_or(List::new(alloc));
    Ok(takes_access(include.as_slice(), exclude.as_slice()))
}

#[tactic(auto, unfolding(crate::specs::Logging::log_members))]
fn read_members(
    alloc: Global,
    name: &Text,
    fields: &Fields<'_>,
    at: &Place<'_>,
) -> Result<Log, LoadFault>
    ensures { Gives LoadFault.NoMemory result (log_members name.now fields.now.members.now at.now) }
{
    let writer = optional::<Writer>(alloc, fields, at, "writer")?;
    read_without_effect(alloc, fields, at)?;
    let access = read_access(alloc, fields, at)?;
    Ok(Log {
        name: name.copy(alloc)?,
        writer: writer.unwrap_or(Writer::Stderr),
        access,
    })
}

impl Named for Log {
    ghost named = { named_log };

    #[tactic(auto, unfolding(crate::specs::Logging::named_log))]
    fn read_named(
        alloc: Global,
        name: &Text,
        tree: &Tree,
        at: &Place<'_>,
    ) -> Result<Log, LoadFault> {
        let names = "writer encoder level include exclude";
        let fields = fields_of(alloc, tree, at, names)?;
        read_members(alloc, name, &fields, at)
    }
}
