use crate::address::Address;
use cd_text::{List, Octets};

/// A name of a matcher, where it is defined or used.
#[derive(Drop)]
pub struct Named {
    /// The line of its site.
    pub site: u32,
    pub line: u32,
    /// With its `@`.
    pub name: Octets,
}

/// A test of a matcher.
#[derive(Drop)]
pub struct TestLine {
    /// The line of the matcher.
    pub matcher: u32,
    pub words: List<Octets>,
}

/// The matchers of a file, each with its tests, in their order.
#[derive(Drop)]
pub struct Matchers {
    /// Their names, where they are defined.
    pub defined: List<Named>,
    pub tested: List<TestLine>,
}

/// A site's address, and its line.
#[derive(Drop)]
pub struct Located {
    pub line: u32,
    pub address: Address,
}
