ghost use Rattle.std.specs.Prelude.{◌≡◌, ◌++◌, [], map, IfOk, OnOk};
ghost use Rattle.cd_tree.specs.Spot.{base_path, base_texts, spot_path, part_text};

use crate::path::Path;
use crate::shared::Shared;
use crate::spot_parts::{SpotPart, SpotParts, no_parts};
use cd_text::{List, NoMemory, Text, decimal as decimal_text};
use std::alloc::Global;
use std::marker::Model;

/// Where a value is in a tree, to be kept. It says the same as a `Path`, and takes less: spots below a `Base` share its parts,
/// and a name that has several owners is not copied. Contracts see it as the path.
#[derive(Drop)]
pub struct Spot {
    parts: SpotParts,
}

impl Model for Spot {
    ghost use Rattle.cd_tree.specs.declared.path.Path.{Path};

    ghost Value = { Path };

    ghost use Rattle.cd_tree.specs.Spot.{spot_path};

    ghost view = { λ spot. spot_path spot.parts };
}

impl Spot {
    /// The spot of the tree itself. It takes no memory.
    pub fn root(alloc: Global) -> Spot
        ensures { result.parts ≡ [] }
    {
        Spot {
            parts: SpotParts {
                base: None,
                rest: List::new(alloc),
            },
        }
    }

    /// The spot of these parts.
    pub(crate) fn of(parts: SpotParts) -> Spot
        ensures { result ≡ spot_path parts }
    {
        Spot { parts }
    }

    /// A copy.
    pub fn copy(&self, alloc: Global) -> Result<Spot, NoMemory>
        ensures { IfOk result (λ spot. spot ≡ self.now) }
    {
        let parts = copy_parts(alloc, &self.parts)?;
        Ok(Spot { parts })
    }

    /// The path to this spot.
    pub fn to_path(&self, alloc: Global) -> Result<Path, NoMemory>
        ensures { IfOk result (λ path. path ≡ self.now) }
    {
        path_of_parts(alloc, &self.parts)
    }
}

// One owner more of a base.
fn share_base(base: &Option<Shared<SpotPart>>) -> Result<Option<Shared<SpotPart>>, NoMemory>
    ensures { IfOk result (λ made. made ≡ base.now) }
{
    match base {
        None => Ok(None),
        Some(parts) => Ok(Some(parts.share()?)),
    }
}

fn copy_parts(alloc: Global, parts: &SpotParts) -> Result<SpotParts, NoMemory>
    ensures { IfOk result (λ made. spot_path made ≡ spot_path parts.now) }
{
    let base = share_base(&parts.base)?;
    let rest = copy_each(alloc, parts.rest.as_slice(), 0)?;
    Ok(SpotParts { base, rest })
}

/// Copies of parts, which name what these do, with room for so many more.
pub(crate) fn copy_each(
    alloc: Global,
    parts: &[SpotPart],
    room: usize,
) -> Result<List<SpotPart>, NoMemory>
    ensures { IfOk result (λ made. map part_text made ≡ map part_text parts.now) }
{
    let mut made = no_parts(alloc, parts.len().saturating_add(room))?;
    for part in parts {
        made.push(copy_part(part)?)?;
    }
    Ok(made)
}

fn copy_part(part: &SpotPart) -> Result<SpotPart, NoMemory>
    ensures { IfOk result (λ made. part_text made ≡ part_text part.now) }
{
    match part {
        SpotPart::Name(name) => Ok(SpotPart::Name(name.share()?)),
        SpotPart::Element(place) => Ok(SpotPart::Element(*place)),
    }
}

fn path_of_parts(alloc: Global, parts: &SpotParts) -> Result<Path, NoMemory>
    ensures { IfOk result (λ path. path ≡ spot_path parts.now) }
{
    let mut path = List::new(alloc);
    add_base(alloc, &mut path, &parts.base)?;
    add_texts(alloc, &mut path, parts.rest.as_slice())?;
    Ok(Path { parts: path })
}

/// The path to a base of these parts.
pub(crate) fn path_of_base(alloc: Global, parts: &[SpotPart]) -> Result<Path, NoMemory>
    ensures { IfOk result (λ path. path ≡ base_path parts.now) }
{
    let mut path = List::new(alloc);
    add_texts(alloc, &mut path, parts)?;
    Ok(Path { parts: path })
}

// Adds the texts of a base.
fn add_base(
    alloc: Global,
    path: &mut List<Text>,
    base: &Option<Shared<SpotPart>>,
) -> Result<(), NoMemory>
    ensures { OnOk result (path.new ≡ path.old ++ base_texts base.now) }
{
    match base {
        None => Ok(()),
        Some(parts) => add_texts(alloc, path, parts.as_slice()),
    }
}

// Adds the texts of parts.
fn add_texts(alloc: Global, path: &mut List<Text>, parts: &[SpotPart]) -> Result<(), NoMemory>
    ensures { OnOk result (path.new ≡ path.old ++ map part_text parts.now) }
{
    for part in parts {
        path.push(text_of_part(alloc, part)?)?;
    }
    Ok(())
}

fn text_of_part(alloc: Global, part: &SpotPart) -> Result<Text, NoMemory>
    ensures { IfOk result (λ text. text ≡ part_text part.now) }
{
    match part {
        SpotPart::Name(name) => name.copy(alloc),
        SpotPart::Element(place) => decimal_text(alloc, *place as u64),
    }
}
