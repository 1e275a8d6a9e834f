ghost use Rattle.std.specs.Prelude.{◌≡◌, ◌++◌, map, decimal, IfOk};
ghost use Rattle.cd_tree.specs.Path.{◌▸◌};
ghost use Rattle.cd_tree.specs.Spot.{base_path, base_texts, part_text, spot_path};
ghost use Rattle.cd_tree.specs.Way.{path_of};

use crate::path::Path;
use crate::shared::Shared;
use crate::shared_text::SharedText;
use crate::spot::{copy_each, path_of_base};
use crate::spot_parts::{SpotPart, SpotParts, no_parts};
use cd_text::{List, NoMemory, Text, decimal as decimal_text};
use std::alloc::Global;

/// The parts of a place, from the last to the first. Each borrows the way above it.
#[derive(Clone, Copy)]
pub(crate) enum Way<'a> {
    Top,
    Base(&'a Shared<SpotPart>),
    Member(&'a Way<'a>, &'a str),
    Named(&'a Way<'a>, &'a SharedText),
    Element(&'a Way<'a>, usize),
}

impl<'a> Way<'a> {
    /// The way to a base.
    pub(crate) fn base(parts: &'a Shared<SpotPart>) -> Way<'a>
        ensures { path_of result ≡ base_path parts.now }
    {
        Way::Base(parts)
    }

    /// The way to a member of the value to which another way leads.
    pub(crate) fn member(above: &'a Way<'a>, name: &'a str) -> Way<'a>
        ensures { path_of result ≡ path_of above.now ▸ name.now }
    {
        Way::Member(above, name)
    }

    /// The way to a member whose name has several owners.
    pub(crate) fn named(above: &'a Way<'a>, name: &'a SharedText) -> Way<'a>
        ensures { path_of result ≡ path_of above.now ▸ name.now }
    {
        Way::Named(above, name)
    }

    /// The way to an element of the list to which another way leads.
    pub(crate) fn element(above: &'a Way<'a>, place: usize) -> Way<'a>
        ensures { path_of result ≡ path_of above.now ▸ decimal place }
    {
        Way::Element(above, place)
    }
}

/// The path with copies of the parts. It calls itself for each part, and there are as many as levels were gone down.
pub(crate) fn to_path(alloc: Global, way: &Way<'_>) -> Result<Path, NoMemory>
    ensures { IfOk result (λ path. path ≡ path_of way.now) }
{
    match way {
        Way::Top => Ok(Path::root(alloc)),
        Way::Base(parts) => path_of_base(alloc, parts.as_slice()),
        Way::Member(above, name) => {
            let mut path = to_path(alloc, above)?;
            path.parts.push(Text::from_str(alloc, name)?)?;
            Ok(path)
        }
        Way::Named(above, name) => {
            let mut path = to_path(alloc, above)?;
            path.parts.push(name.copy(alloc)?)?;
            Ok(path)
        }
        Way::Element(above, place) => {
            let mut path = to_path(alloc, above)?;
            path.parts.push(decimal_text(alloc, *place as u64)?)?;
            Ok(path)
        }
    }
}

/// The parts of a spot. It calls itself for each part. The rest has room for so many more than the way has parts.
pub(crate) fn to_parts(alloc: Global, way: &Way<'_>, room: usize) -> Result<SpotParts, NoMemory>
    ensures { IfOk result (λ parts. spot_path parts ≡ path_of way.now) }
{
    let next = room.saturating_add(1);
    match way {
        Way::Top => based(alloc, None, room),
        Way::Base(parts) => based(alloc, Some(parts.share()?), room),
        Way::Member(above, name) => {
            let part = SpotPart::Name(SharedText::from_str(alloc, name)?);
            with_part(to_parts(alloc, above, next)?, part)
        }
        Way::Named(above, name) => {
            let part = SpotPart::Name(name.share()?);
            with_part(to_parts(alloc, above, next)?, part)
        }
        Way::Element(above, place) => {
            with_part(to_parts(alloc, above, next)?, SpotPart::Element(*place))
        }
    }
}

/// The parts of a base, to be shared.
pub(crate) fn to_base(alloc: Global, way: &Way<'_>) -> Result<Shared<SpotPart>, NoMemory>
    ensures { IfOk result (λ parts. base_path parts ≡ path_of way.now) }
{
    let SpotParts { base, rest } = to_parts(alloc, way, 0)?;
    match base {
        None => Shared::new(alloc, rest),
        Some(base) => Shared::new(alloc, joined(alloc, base.as_slice(), rest)?),
    }
}

// The parts of a base, and those after them.
#[tactic(auto, using(crate::proofs::Spots::all_parts))]
fn joined(
    alloc: Global,
    base: &[SpotPart],
    rest: List<SpotPart>,
) -> Result<List<SpotPart>, NoMemory>
    ensures { IfOk result (λ all. map part_text all ≡ map part_text base.now ++ map part_text rest) }
{
    let mut all = copy_each(alloc, base, rest.len())?;
    all.append(rest)?;
    Ok(all)
}

// The parts of a base alone, with room for so many more.
fn based(alloc: Global, base: Option<Shared<SpotPart>>, room: usize) -> Result<SpotParts, NoMemory>
    ensures { IfOk result (λ parts. spot_path parts ≡ record { parts = base_texts base }) }
{
    let rest = no_parts(alloc, room)?;
    Ok(SpotParts { base, rest })
}

// One part more.
#[tactic(auto, using(crate::proofs::Spots::one_part))]
fn with_part(mut parts: SpotParts, part: SpotPart) -> Result<SpotParts, NoMemory>
    ensures { IfOk result (λ made. spot_path made ≡ spot_path parts ▸ part_text part) }
{
    parts.rest.push(part)?;
    Ok(parts)
}
