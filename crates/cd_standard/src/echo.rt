ghost use Rattle.cd_standard.specs.Configuration.{echo};

use cd_module::{LoadFault, Settings, fields_of, needed};
use cd_routes::Listen;
use cd_tree::{Place, Tree};
use std::alloc::Global;

/// The settings of the app `echo`, which answers with the body that it is sent (own).
#[derive(Debug, Drop)]
pub struct Echo {
    pub listen: Listen,
}

impl Settings for Echo {
    ghost reader = { echo };

    #[tactic(auto, unfolding(crate::specs::Configuration::echo))]
    fn read(alloc: Global, tree: &Tree, at: &Place<'_>) -> Result<Echo, LoadFault> {
        let fields = fields_of(alloc, tree, at, "listen")?;
        let listen = needed::<Listen>(alloc, &fields, at, "listen")?;
        Ok(Echo { listen })
    }
}
