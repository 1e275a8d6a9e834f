use crate::shared::Shared;
use crate::shared_text::SharedText;
use cd_text::Text;

/// A JSON value whose numbers are whole.
#[cycle(tree)]
#[derive(Drop)]
pub enum Tree {
    Null,
    Bool(bool),
    Num(Num),
    Text(SharedText),
    Items(Shared<Tree>),
    /// In a sound tree the keys rise in byte order, and so are distinct.
    Object(Shared<Member>),
}

/// A member of an object.
#[cycle(tree)]
#[derive(Drop)]
pub struct Member {
    pub key: Text,
    pub value: Tree,
}

/// A whole number, from -2^63 to 2^64 - 1 in a sound tree.
#[derive(Clone, Copy, PartialEq, Eq, Debug)]
pub struct Num {
    /// Below zero. A sound tree has no negative zero.
    pub negative: bool,
    /// How far from zero.
    pub size: u64,
}
