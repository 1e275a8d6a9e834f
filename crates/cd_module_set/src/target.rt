use cd_outside::Key;
use cd_text::Text;

/// Who answers the connections that come to an address.
#[derive(Clone, Copy, Debug, PartialEq, Eq)]
pub enum Target {
    /// The admin API.
    Admin,
    /// A server, or another app.
    App,
    /// Nobody listens there.
    Nobody,
}

/// Who answers at an address, by the set's own numbers, so that an answer need not look the address up again.
#[derive(Clone, Copy, Debug, PartialEq, Eq)]
pub struct Responder {
    pub target: Target,
    /// The number of the app, by its place among the configuration's apps.
    pub app: usize,
    /// The number of the server, by its place among the app's servers.
    pub server: usize,
}

/// A line of an access log.
#[derive(Debug, Drop)]
pub struct Line {
    /// The writer that it is for.
    pub key: Key,
    /// The line, with its end.
    pub text: Text,
}
