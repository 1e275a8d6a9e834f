ghost use Rattle.std.specs.Prelude.{◌≡◌, [], decimal, IfOk};
ghost use Rattle.cd_tree.specs.Path.{◌▸◌};
ghost use Rattle.cd_tree.specs.Spot.{base_path};

use crate::base::Base;
use crate::path::Path;
use crate::shared::Shared;
use crate::shared_text::SharedText;
use crate::spot::Spot;
use crate::spot_parts::SpotPart;
use crate::way::{Way, to_base, to_parts, to_path};
use cd_text::NoMemory;
use std::alloc::Global;
use std::marker::Model;

/// Where a value is in a tree, for a reader that goes down in it. Each part is borrowed from the reader that went that way, so
/// a place takes no memory. Contracts see it as the path.
#[derive(Drop)]
pub struct Place<'a> {
    way: Way<'a>,
}

impl<'a> Model for Place<'a> {
    ghost use Rattle.cd_tree.specs.declared.path.Path.{Path};

    ghost Value = { Path };

    ghost use Rattle.cd_tree.specs.Way.{path_of};

    ghost view = { λ place. path_of place.way };
}

impl<'a> Place<'a> {
    /// The place of the tree itself.
    pub fn top() -> Place<'a>
        ensures { result.parts ≡ [] }
    {
        Place { way: Way::Top }
    }

    /// The place of a base of these parts.
    pub(crate) fn at_base(parts: &'a Shared<SpotPart>) -> Place<'a>
        ensures { result ≡ base_path parts.now }
    {
        Place {
            way: Way::base(parts),
        }
    }

    /// The place of a member of the value that is here.
    pub fn member<'b>(&'b self, name: &'b str) -> Place<'b>
        ensures { result ≡ self.now ▸ name.now }
    {
        Place {
            way: Way::member(&self.way, name),
        }
    }

    /// The same of a name that has several owners. A spot becomes one more, and copies nothing.
    pub fn named<'b>(&'b self, name: &'b SharedText) -> Place<'b>
        ensures { result ≡ self.now ▸ name.now }
    {
        Place {
            way: Way::named(&self.way, name),
        }
    }

    /// The place of an element of the list that is here, counted from 0.
    pub fn element<'b>(&'b self, place: usize) -> Place<'b>
        ensures { result ≡ self.now ▸ decimal place }
    {
        Place {
            way: Way::element(&self.way, place),
        }
    }

    /// The path to this place, which outlasts it.
    pub fn to_path(&self, alloc: Global) -> Result<Path, NoMemory>
        ensures { IfOk result (λ path. path ≡ self.now) }
    {
        to_path(alloc, &self.way)
    }
    /// The spot of this place, which outlasts it.
    pub fn to_spot(&self, alloc: Global) -> Result<Spot, NoMemory>
        ensures { IfOk result (λ spot. spot ≡ self.now) }
    {
        let parts = to_parts(alloc, &self.way, 0)?;
        Ok(Spot::of(parts))
    }
    /// The base of this place, which outlasts it, for spots below.
    pub fn to_base(&self, alloc: Global) -> Result<Base, NoMemory>
        ensures { IfOk result (λ base. base ≡ self.now) }
    {
        let parts = to_base(alloc, &self.way)?;
        Ok(Base::of(parts))
    }
}
