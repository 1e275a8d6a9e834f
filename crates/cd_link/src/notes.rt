//! What a call on a lane shows, and how the past then goes on.
ghost use Rattle.cd_outside.specs.Past.{after_accept, after_read, after_put, after_line, after_keep};
ghost use Rattle.cd_outside.specs.Received.{after_receipt};
ghost use Rattle.cd_link.specs.Came.{came};

use crate::{Notes, Told};
use cd_outside::{Accepted, Given, Key, Past, Received, Taken};
use cd_text::Text;
use cd_wire::Intake;

/// An accept answered so.
#[derive(Drop)]
pub struct Accepts<'a> {
    pub accepted: &'a Accepted,
}

/// A read answered so, with these bytes.
#[derive(Drop)]
pub struct Reads<'a> {
    pub taken: Taken,
    pub into: &'a [u8],
}

/// A receive answered so, and left the intake so.
#[derive(Drop)]
pub struct Receives<'a> {
    pub received: Received,
    /// What the intake had before.
    pub before: &'a Told<Intake>,
    pub into: &'a Intake,
}

/// This part was put.
#[derive(Drop)]
pub struct Puts<'a> {
    pub part: &'a [u8],
}

/// A line was given to a log writer, or not.
#[derive(Drop)]
pub struct Logs<'a> {
    pub given: Given,
    pub key: &'a Key,
    pub line: &'a Text,
}

/// A configuration was kept, or not.
#[derive(Drop)]
pub struct Keeps<'a> {
    pub given: Given,
    pub serial: u32,
    pub text: &'a [u8],
}

/// How the past goes on.
pub struct GoesOn;

impl<'a> Notes<Accepts<'a>, Past> for GoesOn {
    ghost after = { λ note past. after_accept note.accepted.now past };
}

impl<'a> Notes<Reads<'a>, Past> for GoesOn {
    ghost after = { λ note past. after_read note.taken note.into.now past };
}

impl<'a> Notes<Receives<'a>, Past> for GoesOn {
    ghost after = { λ note past. after_receipt note.received (came note.received note.before.now.value note.into.now) past };
}

impl<'a> Notes<Puts<'a>, Past> for GoesOn {
    ghost after = { λ note past. after_put note.part.now past };
}

impl<'a> Notes<Logs<'a>, Past> for GoesOn {
    ghost after = { λ note past. after_line note.given note.key.now note.line.now past };
}

impl<'a> Notes<Keeps<'a>, Past> for GoesOn {
    ghost after = { λ note past. after_keep note.given note.serial note.text.now past };
}
