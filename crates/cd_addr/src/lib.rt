//! Addresses to listen on: how a configuration writes them, and how a message does.
//!
//! `read_range` gives what a text writes as an `AddressRange`, a host and its ports, which takes as much memory whatever the
//! ports are. `read` gives the addresses of a text, one for each port that it names, and `write` the text of one address
//! (specs/Addresses.antt). What is written of an address that was read reads back as that address alone (laws.rt). A host is
//! kept in lower case and without brackets, so two addresses are equal where they have the same host and port.
//!
//! Whether something can listen there is for the outside to say. A name is not looked up here, and an IP address in brackets is
//! looked at byte by byte alone.
#![tactic(auto)]

mod fault;
mod laws;
mod limits;
mod range;
mod reading;
mod writing;

pub use fault::AddrFault;
pub use laws::{limits_of_addresses, what_is_read_reads_back};
pub use limits::{MAX_PORT, MAX_RANGE_PORTS};
pub use range::AddressRange;
pub use reading::{read, read_range};
pub use writing::write;
