//! What happens in the stretches of a connection and of a lane, and how what is reported then goes on.
ghost use Rattle.std.specs.Prelude.{◌++◌, ◌∷◌, []};
ghost use Rattle.cd_outside.specs.declared.accepted.Accepted.TheVariants.{Connection as Accepts};
ghost use Rattle.cd_outside.specs.declared.received.Received.TheVariants.{Some as Came, End as Ended, Lacking};
ghost use Rattle.cd_outside.specs.Past.{after_accept};
ghost use Rattle.cd_outside.specs.Received.{after_receipt};
ghost use Rattle.cd_link.specs.Lanes.{after_answer, with_stretch};

use crate::notes::GoesOn;
use crate::{Notes, Told};
use cd_outside::{Accepted, Address, Past};
use cd_text::{List, Octets};
use cd_wire::Intake;

/// A stretch begins at this address.
#[derive(Drop)]
pub struct Begins<'a> {
    pub address: &'a Address,
}

/// These bytes were handed out.
#[derive(Drop)]
pub struct Hands<'a> {
    pub into: &'a Intake,
}

/// A read answered that nothing more comes in this stretch.
#[derive(Drop)]
pub struct Ends;

/// Memory ran out for what was to be handed out.
#[derive(Drop)]
pub struct Lacks;

/// An accept answered so. Its connection has a life of its own.
#[derive(Drop)]
pub struct Answers<'a> {
    pub accepted: &'a Accepted,
}

/// A connection comes, on which a request had last begun under this serial.
#[derive(Drop)]
pub struct Seen {
    pub serial: u32,
}

/// The last stretch of this life is over.
#[derive(Drop)]
pub struct Closes<'a> {
    pub life: &'a Told<Past>,
}

impl<'a> Notes<Begins<'a>, Past> for GoesOn {
    ghost after = { λ note past. after_accept (Accepts note.address.now) past };
}

impl<'a> Notes<Hands<'a>, Past> for GoesOn {
    ghost after = { λ note past. after_receipt Came note.into.now past };
}

impl Notes<Ends, Past> for GoesOn {
    ghost after = { λ note past. after_receipt Ended [] past };
}

impl Notes<Lacks, Past> for GoesOn {
    ghost after = { λ note past. after_receipt Lacking [] past };
}

impl<'a> Notes<Answers<'a>, Past> for GoesOn {
    ghost after = { λ note past. after_answer note.accepted.now past };
}

impl Notes<Seen, List<u32>> for GoesOn {
    ghost after = { λ note serials. serials ++ note.serial ∷ [] };
}

impl<'a> Notes<Closes<'a>, Past> for GoesOn {
    ghost after = { λ note past. with_stretch past note.life.now.value };
}

/// These bytes came, or went.
#[derive(Drop)]
pub struct Bytes<'a> {
    pub bytes: &'a [u8],
}

/// Bytes are added.
pub struct Adds;

impl<'a> Notes<Bytes<'a>, Octets> for Adds {
    ghost after = { λ note octets. octets ++ note.bytes.now };
}
