use cd_text::{List, Octets};

/// Values that are wanted of a field or of a key.
#[derive(Drop)]
pub struct Wanted {
    pub name: Octets,
    pub values: List<Octets>,
}

/// A matcher. All that is given is to hold.
#[derive(Drop)]
pub struct Tests {
    pub path: Option<List<Octets>>,
    pub method: Option<List<Octets>>,
    pub host: Option<List<Octets>>,
    pub header: List<Wanted>,
    pub query: List<Wanted>,
}
