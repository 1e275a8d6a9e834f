//! What a server listens on. Its addresses are kept as ranges, so a text takes as much memory whatever its ports are.
ghost use Rattle.std.specs.Prelude.{◌≡◌};
ghost use Rattle.std.specs.List.{list_any};
ghost use Rattle.cd_addr.specs.Addresses.{is_address};
ghost use Rattle.cd_routes.specs.Server.{listen, listen_text, listened};

use cd_addr::{AddrFault, AddressRange, read_range};
use cd_module::{LoadFault, LoadKind, Settings};
use cd_outside::Address;
use cd_text::{List, Text};
use cd_tree::{Path, Place, Tree};
use std::alloc::Global;

/// The addresses that a text of `listen` names.
#[derive(Debug, Drop)]
pub struct ListenText {
    /// One for each port of the text.
    pub range: AddressRange,
    /// Where the text is in the configuration.
    pub at: Path,
}

/// What a server listens on, text by text as in its `listen`. There is one at least.
#[derive(Debug, Drop)]
pub struct Listen {
    pub texts: List<ListenText>,
}

impl Listen {
    /// Whether it has an address. It takes no memory.
    pub fn contains(&self, address: &Address) -> bool
        ensures { result ≡ list_any (is_address address.now) (listened self.now) }
    {
        for text in self.texts.as_slice() {
            if text.range.contains(address) {
                return true;
            }
        }
        false
    }
}

impl Settings for ListenText {
    ghost reader = { listen_text };

    #[tactic(auto, unfolding(crate::specs::Server::listen_text))]
    fn read(alloc: Global, tree: &Tree, at: &Place<'_>) -> Result<ListenText, LoadFault> {
        let text = Text::read(alloc, tree, at)?;
        match read_range(alloc, &text) {
            Ok(range) => Ok(ListenText {
                range,
                at: at.to_path(alloc)?,
            }),
            Err(AddrFault::NoMemory) => Err(LoadFault::NoMemory),
            Err(AddrFault::BadNetwork | AddrFault::BadPort | AddrFault::BadRange) => {
                Err(LoadFault::at(alloc, LoadKind::BadAddress, at))
            }
        }
    }
}

impl Settings for Listen {
    ghost reader = { listen };

    #[tactic(auto, unfolding(crate::specs::Server::listen))]
    fn read(alloc: Global, tree: &Tree, at: &Place<'_>) -> Result<Listen, LoadFault> {
        let texts = List::<ListenText>::read(alloc, tree, at)?;
        if texts.is_empty() {
            return Err(LoadFault::at(alloc, LoadKind::Missing, at));
        }
        Ok(Listen { texts })
    }
}
