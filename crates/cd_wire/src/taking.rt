//! The request at the front of an input: its head, once that has come, and then its body.
ghost use Rattle.std.specs.Prelude.{◌≡◌, ℕ, ◌≤◌, ◌<◌, ◌+◌, Bool, List, [], true, false, nat_lt, length, take, drop, IfOk, OnErr};
ghost use Rattle.std.specs.List.{list_any};
ghost use Rattle.cd_wire.specs.Framing.{is_closing, request_of};
ghost use Rattle.cd_wire.specs.Heads.{BeginsHead};
ghost use Rattle.cd_wire.specs.Reading.{IsBodyRead};
ghost use Rattle.cd_wire.specs.Requests.{BeginsRequest, HasNoRequest, EndsInBody};
ghost use Rattle.cd_wire.specs.Scanning.{scan, is_over};
ghost use Rattle.cd_wire.specs.Taking.{IsScanned, IsSearch, HasFront, IsKept, IsBegun, IsPause, IsTaken};
ghost use Rattle.cd_wire.specs.declared.scanning.Line.TheVariants as place;
ghost use Rattle.cd_wire.specs.declared.taking.Front.{Front};
ghost use Rattle.cd_wire.specs.declared.request.Request.{Request as Asked};

use crate::bodies::{Body, BodyRead, read_body, unread};
use crate::fault::WireFault;
use crate::head::{Head, HeadRead, read_front};
use crate::judging::judge;
use crate::limits::MAX_HEAD_BYTES;
use crate::request::{Request, request_of};
use crate::scanning::{Line, Scanned, is_over, scan_on};
use crate::texts::rest_from;
use cd_text::{NoMemory, Octets};
use std::alloc::Global;
use std::mem;

/// A request whose head was read and is not refused, and what is known of its body.
#[derive(Drop)]
pub(crate) struct Front {
    /// The request without its body.
    pub request: Request,
    /// Its body so far.
    pub body: Body,
}

/// How far the head at the front of an input was looked for.
#[derive(Clone, Copy, Debug)]
pub(crate) struct Search {
    /// Where its end was looked for.
    pub scanned: Scanned,
    /// How many bytes there were when they were last parsed. They could still become a head.
    pub parsed: usize,
}

/// What is known of the request at the front of an input.
#[derive(Drop)]
pub(crate) enum Known {
    /// Its head has not come.
    Search(Search),
    /// Its head was read and is not refused, and its body has not come whole.
    Front(Front),
    /// It has come whole, and was not taken yet.
    Whole(Request),
}

// What an input begins with: a head that is not refused, whether one of its fields closes the connection, a body of which nothing
// was read, and the length of the head; or why there is none.
#[derive(Drop)]
pub(crate) enum Begun {
    Head(Head, bool, Body, usize),
    More(Search),
    End,
    Refused(WireFault),
}

/// Why no request is taken.
#[derive(Drop)]
pub(crate) enum Pause {
    /// It has not come whole.
    More,
    /// The input ended before it began.
    End,
    /// The input ended in its body.
    Cut,
    /// What follows is refused.
    Refused(WireFault),
    /// Out of memory.
    NoMemory,
}

/// What an input goes on with: a request and how many of the bytes that are left it has; or why there is none, and how many of
/// these bytes were read and need not be kept.
#[derive(Drop)]
pub(crate) enum Taken {
    Request(Request, usize),
    None(Pause, usize),
}

/// Nothing was looked for yet.
pub(crate) fn no_search() -> Search
    ensures { (input : List ℕ) → IsSearch input result }
{
    Search {
        scanned: Scanned {
            count: 0,
            line: Line::Blank,
        },
        parsed: 0,
    }
}

// A head that was read, or its fault.
fn judged(alloc: Global, bytes: &[u8], ended: bool, head: Head, len: usize) -> Begun
    requires within { len ≤ length bytes.now }
    requires begins { BeginsHead bytes.now head (drop len bytes.now) }
    ensures { IsBegun bytes.now ended result }
{
    let marks = head.marks();
    let closing = marks.closing;
    match judge(&head, &marks) {
        Err(fault) => Begun::Refused(fault),
        Ok(framing) => Begun::Head(head, closing, unread(alloc, framing), len),
    }
}

// Parses the head at the front of an input that has some bytes, in which its end was looked for.
fn parse_front(
    alloc: Global,
    bytes: &[u8],
    ended: bool,
    scanned: Scanned,
) -> Result<Begun, NoMemory>
    requires some { 0 < length bytes.now }
    requires scanned { IsScanned bytes.now scanned }
    ensures { IfOk result (IsBegun bytes.now ended) }
{
    let read = read_front(alloc, bytes)?;
    match read {
        HeadRead::Whole(head, len) => Ok(judged(alloc, bytes, ended, head, len)),
        HeadRead::Partial if ended => Ok(Begun::Refused(WireFault::BadHead)),
        HeadRead::Partial => Ok(Begun::More(Search {
            scanned,
            parsed: bytes.len(),
        })),
        HeadRead::Hopeless => Ok(Begun::Refused(WireFault::BadHead)),
    }
}

// An input that has some bytes, in which no head ends, and of which at least half were parsed.
fn without_head(bytes: &[u8], ended: bool, search: Search) -> Begun
    requires some { 0 < length bytes.now }
    requires none { is_over (scan place.Blank bytes.now) ≡ false }
    requires search { IsSearch bytes.now search }
    requires half { length bytes.now ≤ search.parsed + search.parsed }
    ensures { IsBegun bytes.now ended result }
{
    if ended {
        return Begun::Refused(WireFault::BadHead);
    }
    if bytes.len() >= MAX_HEAD_BYTES {
        return Begun::Refused(WireFault::BadHead);
    }
    Begun::More(search)
}

// An input without bytes.
fn no_input(ended: bool) -> Begun
    ensures { IsBegun [] ended result }
{
    if ended {
        Begun::End
    } else {
        Begun::More(no_search())
    }
}

// Whether less than half of the bytes were parsed.
fn is_due(len: usize, parsed: usize) -> bool
    requires { parsed ≤ len }
    ensures { result ≡ nat_lt (parsed + parsed) len }
{
    len - parsed > parsed
}

// What an input begins with, where its head was looked for so far. It is parsed where that is due, so that bytes that never become
// a head are refused early, and else where a head may have ended. So a head that comes at once is not looked through before.
fn search_on(alloc: Global, bytes: &[u8], ended: bool, search: Search) -> Result<Begun, NoMemory>
    requires { IsSearch bytes.now search }
    ensures { IfOk result (IsBegun bytes.now ended) }
{
    if bytes.is_empty() {
        return Ok(no_input(ended));
    }
    if is_due(bytes.len(), search.parsed) {
        return parse_front(alloc, bytes, ended, search.scanned);
    }
    let scanned = scan_on(bytes, search.scanned);
    if is_over(scanned.line) {
        return parse_front(alloc, bytes, ended, scanned);
    }
    let parsed = search.parsed;
    Ok(without_head(bytes, ended, Search { scanned, parsed }))
}

// Why a request stops in its body.
fn cut_or_more(ended: bool) -> Pause
    ensures { (input : List ℕ) → HasNoRequest input → EndsInBody input → IsPause input ended result }
{
    if ended { Pause::Cut } else { Pause::More }
}

// Takes the request out of what is known, and gives it its body. Nothing is known of what follows.
fn take_out(known: &mut Known, body: Octets) -> Request
    requires { (front : Front) × (known.old ≡ Known.Front front) }
    ensures request { (front : Front) → known.old ≡ Known.Front front
        → result ≡ record front.request { body = body } }
    ensures known { (input : List ℕ) → IsKept [] input known.new }
{
    match mem::replace(known, Known::Search(no_search())) {
        Known::Front(front) => front.request.with_body(body),
        Known::Search(_) => unreachable!(),
        Known::Whole(_) => unreachable!(),
    }
}

// The request of a head that was just read, whose body came whole.
fn take_whole(
    alloc: Global,
    head: Head,
    closing: bool,
    body: Octets,
    len: usize,
    known: &mut Known,
) -> Taken
    requires { closing ≡ list_any is_closing head.fields }
    ensures { (input : List ℕ) (ended : Bool) → len ≤ length input
        → BeginsRequest input (request_of head body) (drop len input) → IsKept [] input known.old
        → IsTaken [] input ended known.new result }
{
    match request_of(alloc, head, closing, body) {
        Ok(request) => {
            *known = Known::Search(no_search());
            Taken::Request(request, len)
        }
        Err(_) => Taken::None(Pause::NoMemory, 0),
    }
}

// The request of a head that was just read, whose body goes on.
fn keep_front(
    alloc: Global,
    head: Head,
    closing: bool,
    body: Body,
    pause: Pause,
    len: usize,
    known: &mut Known,
) -> Taken
    requires { closing ≡ list_any is_closing head.fields }
    ensures { (input : List ℕ) (ended : Bool) → len ≤ length input → IsPause input ended pause
        → HasFront (take len input) (record { request = request_of head []; body = body })
        → IsKept [] input known.old → IsTaken [] input ended known.new result }
{
    match request_of(alloc, head, closing, Octets::new(alloc)) {
        Ok(request) => {
            *known = Known::Front(Front { request, body });
            Taken::None(pause, len)
        }
        Err(_) => Taken::None(Pause::NoMemory, 0),
    }
}

// The same of a head that was just read, as far as its body has come after it.
fn take_new(
    alloc: Global,
    bytes: &[u8],
    start: usize,
    ended: bool,
    head: Head,
    closing: bool,
    body: Body,
    known: &mut Known,
) -> Taken
    requires begun { IsBegun bytes.now ended (Begun.Head head closing body start) }
    requires kept { IsKept [] bytes.now known.old }
    ensures { IsTaken [] bytes.now ended known.new result }
{
    let mut body = body;
    match read_body(alloc, rest_from(bytes, start), &mut body) {
        Ok(BodyRead::Whole(found, len)) => take_whole(
            alloc,
            head,
            closing,
            found,
            start + len,
            known,
        ),
        Ok(BodyRead::Going(len)) => {
            keep_front(
                alloc,
                head,
                closing,
                body,
                cut_or_more(ended),
                start + len,
                known,
            )
        }
        Ok(BodyRead::Refused(fault)) => Taken::None(Pause::Refused(fault), 0),
        Err(_) => Taken::None(Pause::NoMemory, 0),
    }
}

// The request at the front of an input, whose head was looked for so far.
fn take_first(alloc: Global, bytes: &[u8], ended: bool, search: Search, known: &mut Known) -> Taken
    requires search { IsSearch bytes.now search }
    requires kept { IsKept [] bytes.now known.old }
    ensures { IsTaken [] bytes.now ended known.new result }
{
    match search_on(alloc, bytes, ended, search) {
        Ok(Begun::Head(head, closing, body, len)) => {
            take_new(alloc, bytes, len, ended, head, closing, body, known)
        }
        Ok(Begun::More(search)) => {
            *known = Known::Search(search);
            Taken::None(Pause::More, 0)
        }
        Ok(Begun::End) => Taken::None(Pause::End, 0),
        Ok(Begun::Refused(fault)) => Taken::None(Pause::Refused(fault), 0),
        Err(_) => Taken::None(Pause::NoMemory, 0),
    }
}

// Reads on in the body of a request.
fn read_on(alloc: Global, bytes: &[u8], front: &mut Front) -> Result<BodyRead, NoMemory>
    requires { (before : List ℕ) × HasFront before front.old }
    ensures request { front.new.request ≡ front.old.request }
    ensures ok { IfOk result (IsBodyRead front.old.body bytes.now front.new.body) }
    ensures err { OnErr result (front.new.body ≡ front.old.body) }
{
    read_body(alloc, bytes, &mut front.body)
}

// The request whose head was read before, as far as its body has come.
fn take_next(alloc: Global, bytes: &[u8], ended: bool, known: &mut Known) -> Taken
    requires { (before : List ℕ) × (front : Front) × (known.old ≡ Known.Front front) × HasFront before front }
    ensures { (before : List ℕ) → IsKept before bytes.now known.old
        → IsTaken before bytes.now ended known.new result }
{
    let Known::Front(front) = known else {
        unreachable!()
    };
    match read_on(alloc, bytes, front) {
        Ok(BodyRead::Whole(found, len)) => Taken::Request(take_out(known, found), len),
        Ok(BodyRead::Going(len)) => Taken::None(cut_or_more(ended), len),
        Ok(BodyRead::Refused(fault)) => Taken::None(Pause::Refused(fault), 0),
        Err(_) => Taken::None(Pause::NoMemory, 0),
    }
}

// The request that has come whole.
fn take_known(known: &mut Known) -> Taken
    requires { (before : List ℕ) × (request : Asked) × (known.old ≡ Known.Whole request) × BeginsRequest before request [] }
    ensures { (before left : List ℕ) (ended : Bool) → IsKept before left known.old → IsTaken before left ended known.new result }
{
    match mem::replace(known, Known::Search(no_search())) {
        Known::Whole(request) => Taken::Request(request, 0),
        Known::Search(_) => unreachable!(),
        Known::Front(_) => unreachable!(),
    }
}

/// The request at the front of an input, of which this is known and these bytes are left.
pub(crate) fn take_request(alloc: Global, bytes: &[u8], ended: bool, known: &mut Known) -> Taken
    requires { (before : List ℕ) × IsKept before bytes.now known.old }
    ensures { (before : List ℕ) → IsKept before bytes.now known.old
        → IsTaken before bytes.now ended known.new result }
{
    if let Known::Search(search) = known {
        let search = *search;
        return take_first(alloc, bytes, ended, search, known);
    }
    if let Known::Whole(_) = known {
        return take_known(known);
    }
    take_next(alloc, bytes, ended, known)
}
