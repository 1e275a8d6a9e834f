use cd_text::Text;
use cd_tree::Tree;

/// A member that an object is to have.
#[derive(Drop)]
pub struct Entry {
    pub key: Text,
    pub value: Tree,
}
