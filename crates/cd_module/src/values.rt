ghost use Rattle.cd_module.specs.Settings.{text, truth, whole, number_or_text};

use crate::fault::{LoadFault, LoadKind};
use crate::settings::Settings;
use cd_text::Text;
use cd_tree::{Num, Place, Tree};
use std::alloc::Global;

/// A number or a text, as a duration is written: `5000000000` or `5s`.
#[derive(Debug, Drop)]
pub enum NumberOrText {
    Number(Num),
    Text(Text),
}

impl Settings for Text {
    ghost reader = { text };

    fn read(alloc: Global, tree: &Tree, at: &Place<'_>) -> Result<Text, LoadFault> {
        match tree {
            Tree::Text(text) => Ok(text.copy(alloc)?),
            _ => Err(LoadFault::at(alloc, LoadKind::WrongKind, at)),
        }
    }
}

impl Settings for bool {
    ghost reader = { truth };

    fn read(alloc: Global, tree: &Tree, at: &Place<'_>) -> Result<bool, LoadFault> {
        match tree {
            Tree::Bool(truth) => Ok(*truth),
            _ => Err(LoadFault::at(alloc, LoadKind::WrongKind, at)),
        }
    }
}

impl Settings for Num {
    ghost reader = { whole };

    fn read(alloc: Global, tree: &Tree, at: &Place<'_>) -> Result<Num, LoadFault> {
        match tree {
            Tree::Num(number) => Ok(*number),
            _ => Err(LoadFault::at(alloc, LoadKind::WrongKind, at)),
        }
    }
}

impl Settings for NumberOrText {
    ghost reader = { number_or_text };

    fn read(alloc: Global, tree: &Tree, at: &Place<'_>) -> Result<NumberOrText, LoadFault> {
        match tree {
            Tree::Num(number) => Ok(NumberOrText::Number(*number)),
            Tree::Text(text) => Ok(NumberOrText::Text(text.copy(alloc)?)),
            _ => Err(LoadFault::at(alloc, LoadKind::WrongKind, at)),
        }
    }
}
