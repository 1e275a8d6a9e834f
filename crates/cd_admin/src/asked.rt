use crate::action::Action;
use crate::endpoint::Endpoint;
use cd_tree::Tree;

/// What a request asks for, as far as the request alone says.
#[derive(Drop)]
pub struct Asked {
    pub place: Endpoint,
    pub action: Action,
    /// The body of POST, PUT and PATCH.
    pub body: Option<Tree>,
}
