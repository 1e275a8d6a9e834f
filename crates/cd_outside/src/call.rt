use crate::Address;
use cd_text::{List, Octets};

/// One connection of a script that a lane in memory plays.
#[derive(Debug, Drop)]
pub struct Call {
    /// Where it comes to.
    pub address: Address,
    /// What can be read from it, one piece after another.
    pub pieces: List<Octets>,
}
