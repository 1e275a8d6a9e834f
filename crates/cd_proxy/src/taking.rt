//! The response that the bytes of an upstream begin with: its final head, once that has come, and then its body.
ghost use Rattle.std.specs.Prelude.{◌≡◌, ℕ, ◌≤◌, ◌+◌, ◌++◌, Bool, List, [], length, take, drop, IfOk, OnErr};
ghost use Rattle.cd_proxy.specs.declared.limits.TheConstants.{MAX_INFORMATIONAL};
ghost use Rattle.cd_proxy.specs.declared.taking.Front.{Front};
ghost use Rattle.cd_proxy.specs.Heads.{BeginsFinal};
ghost use Rattle.cd_proxy.specs.Reading.{Skips, IsContentRead};
ghost use Rattle.cd_proxy.specs.Taking.{HasFront, IsKept, IsFound, IsTaken, pause_cut};

use crate::content::{Content, ContentRead, begun, read_content};
use crate::delimiting::extent_of;
use crate::finals::{FinalRead, read_final};
use crate::head::Head;
use crate::limits::MAX_INFORMATIONAL;
use crate::passed_response::PassedResponse;
use cd_text::{NoMemory, Octets};
use cd_wire::rest_from;
use std::alloc::Global;
use std::mem;

/// A response whose head was read and is not refused.
#[derive(Drop)]
pub(crate) struct Front {
    /// What is passed on of it, without its body.
    pub answer: PassedResponse,
    /// Its body so far.
    pub content: Content,
}

/// What is known of the response at the front of an input.
#[derive(Drop)]
pub(crate) enum Known {
    /// Its final head has not come. So many informational ones may still come before it.
    Search(usize),
    /// Its final head was read, and its body has not come whole.
    Front(Front),
}

/// Why no response is taken.
#[derive(Clone, Copy, Debug)]
pub(crate) enum Pause {
    /// It has not come whole.
    More,
    /// There is none.
    Bad,
    /// Out of memory.
    NoMemory,
}

/// What an input goes on with: a response, and how many of the bytes that are left it has; or why there is none, and how many of
/// these bytes were read and need not be kept.
#[derive(Drop)]
pub(crate) enum Taken {
    Response(PassedResponse, usize),
    None(Pause, usize),
}

// Where the final head of an input ends; or why there is none, and how many of the bytes were read.
#[derive(Clone, Copy, Debug)]
pub(crate) enum Found {
    Front(usize),
    None(Pause, usize),
}

/// Nothing was read yet.
pub(crate) fn no_search() -> Known
    ensures { (head : Bool) → IsKept head [] result }
{
    Known::Search(MAX_INFORMATIONAL)
}

// Why no whole response is there: more bytes may come, unless they have ended.
fn cut(ended: bool) -> Pause
    ensures { result ≡ pause_cut ended }
{
    if ended { Pause::Bad } else { Pause::More }
}

// Keeps a final head that was read, unless its fields are refused.
#[tactic(auto, using(crate::proofs::TakingLemmas::found_front, crate::proofs::TakingLemmas::found_lacking))]
fn keep_front(alloc: Global, response: Head, at: usize, head: bool, known: &mut Known) -> Found
    ensures { (before text : List ℕ) (ended : Bool) → at ≤ length text
        → BeginsFinal MAX_INFORMATIONAL (before ++ take at text) response [] → IsKept head before known.old
        → IsFound head before text ended known.new result }
{
    match extent_of(alloc, head, &response) {
        Ok(Some(extent)) => match PassedResponse::of_head(alloc, response) {
            Ok(answer) => {
                *known = Known::Front(Front {
                    answer,
                    content: begun(alloc, extent),
                });
                Found::Front(at)
            }
            Err(_) => Found::None(Pause::NoMemory, 0),
        },
        Ok(None) => Found::None(Pause::Bad, 0),
        Err(_) => Found::None(Pause::NoMemory, 0),
    }
}

// Looks for the final head, before which so many informational ones may come.
#[tactic(auto, using(crate::proofs::TakingLemmas::found_lacking))]
fn search_on(
    alloc: Global,
    text: &[u8],
    ended: bool,
    head: bool,
    most: usize,
    known: &mut Known,
) -> Found
    ensures { (before : List ℕ) → Skips MAX_INFORMATIONAL before most → IsKept head before known.old
        → IsFound head before text.now ended known.new result }
{
    match read_final(alloc, text, most) {
        Ok(FinalRead::Whole(response, at)) => keep_front(alloc, response, at, head, known),
        Ok(FinalRead::Partial(at, left)) => {
            *known = Known::Search(left);
            Found::None(cut(ended), at)
        }
        Ok(FinalRead::Hopeless) => Found::None(Pause::Bad, 0),
        Err(_) => Found::None(Pause::NoMemory, 0),
    }
}

// Takes the response out of what is known, and gives it its body. Nothing is known of what follows.
fn take_out(known: &mut Known, body: Octets) -> PassedResponse
    requires { (front : Front) × (known.old ≡ Known.Front front) }
    ensures answer { (front : Front) → known.old ≡ Known.Front front
        → result ≡ record front.answer { body = body } }
    ensures known { (head : Bool) → IsKept head [] known.new }
{
    match mem::replace(known, no_search()) {
        Known::Front(front) => front.answer.with_body(body),
        Known::Search(_) => unreachable!(),
    }
}

// Reads on in the body of a response.
fn read_on(
    alloc: Global,
    text: &[u8],
    ended: bool,
    head: bool,
    front: &mut Front,
) -> Result<ContentRead, NoMemory>
    requires { (before : List ℕ) × HasFront head before front.old }
    ensures answer { front.new.answer ≡ front.old.answer }
    ensures ok { IfOk result (IsContentRead ended front.old.content text.now front.new.content) }
    ensures err { OnErr result (front.new.content ≡ front.old.content) }
{
    read_content(alloc, text, ended, &mut front.content)
}

// The response whose head was read before, as far as its body has come.
fn take_next(alloc: Global, text: &[u8], ended: bool, head: bool, known: &mut Known) -> Taken
    requires { (before : List ℕ) × (front : Front) × (known.old ≡ Known.Front front) × HasFront head before front }
    ensures { (before : List ℕ) → IsKept head before known.old
        → IsTaken head before text.now ended known.new result }
{
    let Known::Front(front) = known else {
        unreachable!()
    };
    match read_on(alloc, text, ended, head, front) {
        Ok(ContentRead::Whole(body, len)) => Taken::Response(take_out(known, body), len),
        Ok(ContentRead::Going(len)) => Taken::None(cut(ended), len),
        Ok(ContentRead::Refused) => Taken::None(Pause::Bad, 0),
        Err(_) => Taken::None(Pause::NoMemory, 0),
    }
}

// The same where its head ends at this place.
fn take_after(
    alloc: Global,
    text: &[u8],
    at: usize,
    ended: bool,
    head: bool,
    known: &mut Known,
) -> Taken
    requires { (before : List ℕ) × IsFound head before text.now ended known.old (Found.Front at) }
    ensures { (before : List ℕ) → IsFound head before text.now ended known.old (Found.Front at)
        → IsTaken head before text.now ended known.new result }
{
    match take_next(alloc, rest_from(text, at), ended, head, known) {
        Taken::Response(answer, len) => Taken::Response(answer, at + len),
        Taken::None(pause, len) => Taken::None(pause, at + len),
    }
}

// The response of which only informational heads were read, before whose final one so many more may come.
fn take_first(
    alloc: Global,
    text: &[u8],
    ended: bool,
    head: bool,
    most: usize,
    known: &mut Known,
) -> Taken
    requires { (before : List ℕ) × Skips MAX_INFORMATIONAL before most × IsKept head before known.old }
    ensures { (before : List ℕ) → Skips MAX_INFORMATIONAL before most → IsKept head before known.old
        → IsTaken head before text.now ended known.new result }
{
    match search_on(alloc, text, ended, head, most, known) {
        Found::Front(at) => take_after(alloc, text, at, ended, head, known),
        Found::None(pause, len) => Taken::None(pause, len),
    }
}

/// The response at the front of an input, of which this is known and this text is left. `head` says that the request was HEAD.
pub(crate) fn take_response(
    alloc: Global,
    text: &[u8],
    ended: bool,
    head: bool,
    known: &mut Known,
) -> Taken
    requires { (before : List ℕ) × IsKept head before known.old }
    ensures { (before : List ℕ) → IsKept head before known.old
        → IsTaken head before text.now ended known.new result }
{
    if let Known::Search(most) = known {
        let most = *most;
        return take_first(alloc, text, ended, head, most, known);
    }
    take_next(alloc, text, ended, head, known)
}
