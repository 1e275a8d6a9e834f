use cd_caddyfile::CaddyfileFault;
use cd_module::Refusal;
use cd_path::EditFault;
use cd_text::Text;
use cd_tree::TreeFault;

/// Which methods an endpoint takes.
#[derive(Clone, Copy, Debug)]
pub enum Methods {
    /// GET, POST, PUT, PATCH and DELETE.
    All,
    /// POST.
    PostAlone,
}

/// Why a request is refused.
#[derive(Debug, Drop)]
pub enum Denial {
    /// Its Host is not one of those that are expected.
    OtherHost,
    /// Its Origin is not one of those that are expected, or comes more than once.
    OtherOrigin,
    /// Its path names nothing, or is not UTF-8.
    UnknownPath,
    /// What its path names takes other methods.
    OtherMethod(Methods),
    /// Its Content-Type does not end in `/json`, and is not that of a Caddyfile for `/load`.
    ContentType,
    /// A method that needs a body has none.
    NoBody,
    /// Its body is no tree.
    Body(TreeFault),
    /// Its body is a Caddyfile that has a fault.
    Sites(CaddyfileFault),
    /// No object has this id.
    UnknownId(Text),
    /// Its path leads nowhere, or the edit is refused.
    Edit(EditFault),
    /// If-Match does not have the form of a tag, or comes more than once.
    MalformedIfMatch,
    /// The tag of If-Match does not hold.
    FailedIfMatch,
    /// The tree that it makes is no configuration.
    Load(Refusal),
}
