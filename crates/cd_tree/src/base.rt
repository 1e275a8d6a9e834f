ghost use Rattle.std.specs.Prelude.{◌≡◌};
ghost use Rattle.cd_tree.specs.Spot.{base_path};

use crate::place::Place;
use crate::shared::Shared;
use crate::spot_parts::SpotPart;
use std::marker::Model;

/// A place that many spots are below. It keeps its parts once for all of them. Contracts see it as the path.
#[derive(Drop)]
pub struct Base {
    parts: Shared<SpotPart>,
}

impl Model for Base {
    ghost use Rattle.cd_tree.specs.declared.path.Path.{Path};

    ghost Value = { Path };

    ghost use Rattle.cd_tree.specs.Spot.{base_path};

    ghost view = { λ base. base_path base.parts };
}

impl Base {
    /// The base of these parts.
    pub(crate) fn of(parts: Shared<SpotPart>) -> Base
        ensures { result ≡ base_path parts }
    {
        Base { parts }
    }

    /// The place of this base. Spots of places in it share its parts.
    pub fn place(&self) -> Place<'_>
        ensures { result ≡ self.now }
    {
        Place::at_base(&self.parts)
    }
}
