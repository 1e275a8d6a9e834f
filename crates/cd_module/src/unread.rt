//! Settings without an effect: their kind is checked, and what is inside is not read.
ghost use Rattle.cd_module.specs.Settings.{unread_list, unread_object};

use crate::fault::{LoadFault, LoadKind};
use crate::settings::Settings;
use cd_tree::{Place, Tree};
use std::alloc::Global;

/// A list, with any elements.
#[derive(Clone, Copy, Debug, PartialEq, Eq)]
pub struct UnreadList;

/// An object, with any members.
#[derive(Clone, Copy, Debug, PartialEq, Eq)]
pub struct UnreadObject;

impl Settings for UnreadList {
    ghost reader = { unread_list };

    fn read(alloc: Global, tree: &Tree, at: &Place<'_>) -> Result<UnreadList, LoadFault> {
        match tree {
            Tree::Items(_) => Ok(UnreadList),
            _ => Err(LoadFault::at(alloc, LoadKind::WrongKind, at)),
        }
    }
}

impl Settings for UnreadObject {
    ghost reader = { unread_object };

    fn read(alloc: Global, tree: &Tree, at: &Place<'_>) -> Result<UnreadObject, LoadFault> {
        match tree {
            Tree::Object(_) => Ok(UnreadObject),
            _ => Err(LoadFault::at(alloc, LoadKind::WrongKind, at)),
        }
    }
}
