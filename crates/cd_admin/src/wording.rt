//! The words and the status of each refusal.
ghost use Rattle.std.specs.Prelude.{◌≡◌, ◌++◌, IfOk, string_bytes};
ghost use Rattle.cd_admin.specs.Words.{tree_words, edit_words, edit_status, words, status, allow};

use crate::denial::{Denial, Methods};
use cd_caddyfile::fault_words;
use cd_path::EditFault;
use cd_text::{NoMemory, Text};
use cd_tree::TreeFault;
use std::alloc::Global;

impl Methods {
    /// Their names, as Allow has them.
    pub fn names(self) -> &'static str
        ensures { result.now ≡ allow self }
    {
        match self {
            Methods::All => "GET, POST, PUT, PATCH, DELETE",
            Methods::PostAlone => "POST",
        }
    }
}

fn tree_words(fault: TreeFault) -> &'static str
    ensures { result.now ≡ tree_words fault }
{
    match fault {
        TreeFault::NotJson => "not JSON",
        TreeFault::FractionOrRange => "number is not a whole number in range",
        TreeFault::TooDeep => "nested too deeply",
        TreeFault::TooLong => "too long",
        TreeFault::NoMemory => "",
    }
}

fn edit_words(fault: EditFault) -> &'static str
    ensures { result.now ≡ edit_words fault }
{
    match fault {
        EditFault::NoSuchKey => "no such key",
        EditFault::KeyExists => "key already exists",
        EditFault::BadIndex => "bad index",
        EditFault::OutOfBounds => "index out of bounds",
        EditFault::NotTraversable => "path cannot be traversed",
        EditFault::NotAList => "destination is not a list",
        EditFault::BodyNotList => "body is not a list",
        EditFault::PositionPost => "POST at a position of a list",
        EditFault::BodyMissing => "body missing",
        EditFault::EllipsisVerb => "path ends in ... without POST",
        EditFault::ResultTooDeep => "result nested too deeply",
        EditFault::ResultTooLong => "result too long",
        EditFault::NoMemory => "",
    }
}

fn edit_status(fault: EditFault) -> u16
    ensures { result ≡ edit_status fault }
{
    match fault {
        EditFault::NoSuchKey => 404,
        EditFault::KeyExists => 409,
        EditFault::BadIndex
        | EditFault::OutOfBounds
        | EditFault::NotTraversable
        | EditFault::NotAList
        | EditFault::BodyNotList
        | EditFault::PositionPost
        | EditFault::BodyMissing
        | EditFault::EllipsisVerb
        | EditFault::ResultTooDeep
        | EditFault::ResultTooLong
        | EditFault::NoMemory => 400,
    }
}

fn unknown_id(alloc: Global, id: &Text) -> Result<Text, NoMemory>
    ensures { IfOk result (λ made. made ≡ words (Denial.UnknownId id.now)) }
{
    let mut text = String::from_str(alloc, "unknown id ")?;
    text.push_str(id.as_str())?;
    Ok(Text::from_string(text))
}

impl Denial {
    /// The status that it is answered with (RFC 9110, section 15.5).
    pub fn status(&self) -> u16
        ensures { result ≡ status self.now }
    {
        match self {
            Denial::OtherHost | Denial::OtherOrigin => 403,
            Denial::UnknownPath | Denial::UnknownId(_) => 404,
            Denial::OtherMethod(_) => 405,
            Denial::FailedIfMatch => 412,
            Denial::Edit(fault) => edit_status(*fault),
            Denial::ContentType
            | Denial::NoBody
            | Denial::Body(_)
            | Denial::Sites(_)
            | Denial::MalformedIfMatch
            | Denial::Load(_) => 400,
        }
    }

    /// The words that say it.
    pub fn words(&self, alloc: Global) -> Result<Text, NoMemory>
        ensures { IfOk result (λ made. made ≡ words self.now) }
    {
        match self {
            Denial::OtherHost => Text::from_str(alloc, "host not allowed"),
            Denial::OtherOrigin => Text::from_str(alloc, "origin not allowed"),
            Denial::UnknownPath => Text::from_str(alloc, "unknown path"),
            Denial::OtherMethod(_) => Text::from_str(alloc, "method not allowed"),
            Denial::ContentType => Text::from_str(alloc, "unacceptable content-type"),
            Denial::NoBody => Text::from_str(alloc, "body missing"),
            Denial::Body(fault) => Text::from_str(alloc, tree_words(*fault)),
            Denial::Sites(fault) => fault_words(alloc, fault),
            Denial::UnknownId(id) => unknown_id(alloc, id),
            Denial::Edit(fault) => Text::from_str(alloc, edit_words(*fault)),
            Denial::MalformedIfMatch => Text::from_str(alloc, "malformed If-Match"),
            Denial::FailedIfMatch => Text::from_str(alloc, "If-Match does not hold"),
            Denial::Load(refusal) => refusal.words(alloc),
        }
    }
}
