ghost use Rattle.std.specs.Prelude.{◌≡◌, ◌≤◌, [], length, map, All, take, IfOk, IfSome, IfNone};
ghost use Rattle.httparse.specs.Spans.{IsWithin, IsHeaderWithin, IsRequestWithin, RequestOverflows, header_bytes, span_bytes};
ghost use Rattle.cd_wire.specs.declared.limits.TheConstants.{MAX_HEAD_BYTES, MAX_HEAD_FIELDS};
ghost use Rattle.cd_wire.specs.Framing.{host_of};
ghost use Rattle.cd_wire.specs.Heads.{field_of, head_at};
ghost use Rattle.cd_wire.specs.Marks.{AreMarks};
ghost use Rattle.cd_wire.specs.Places.{HasFields, IsWritten};
ghost use Rattle.cd_wire.specs.Taking.{IsHeadRead, IsFrontRead};

use crate::limits::{MAX_HEAD_BYTES, MAX_HEAD_FIELDS};
use crate::marks::{Marks, first_value, marks_of};
use crate::place::{Place, first_at, put_lowered_parts, put_parts, second_at};
use crate::seen::{Fields, fields_at};
use crate::targets::{authority_of, has_scheme};
use crate::texts::front_of;
use cd_text::NoMemory;
use httparse::Status;
use httparse::spans::{EMPTY_HEADER_SPAN, HeaderSpan, RequestSpans, parse_request};
use std::alloc::Global;
use std::marker::Model;

// How many fields a head usually has at most. For more the room is made anew.
const USUAL_HEAD_FIELDS: usize = 16;

/// What is kept of the head of a request, in one block of bytes.
///
///     bytes:   method target  name value  name value  ..
///              line           places[0]   places[1]
#[derive(Debug, Drop)]
pub(crate) struct Head {
    bytes: Vec<u8>,
    line: Place,
    minor: u8,
    // the fields, with their names in lower case
    places: Vec<Place>,
}

impl Model for Head {
    ghost use Rattle.std.specs.Prelude.{length, slice_range};
    ghost use Rattle.cd_wire.specs.Parts.{HeadParts};

    ghost Value = { HeadParts };

    ghost use Rattle.cd_wire.specs.Places.{IsPlaceIn, ArePlacesIn, fields_at};

    ghost view = { λ head. record {
      method = slice_range head.bytes.items head.line.start head.line.middle;
      target = slice_range head.bytes.items head.line.middle head.line.end;
      minor = head.minor;
      fields = fields_at head.bytes.items head.places.items;
    } };

    ghost invariant = { λ head. IsPlaceIn (length head.bytes.items) head.line × ArePlacesIn (length head.bytes.items) head.places.items };
}

impl Head {
    /// A head without fields.
    pub fn plain(alloc: Global, method: &[u8], target: &[u8], minor: u8) -> Result<Head, NoMemory>
        ensures { IfOk result (λ head. head ≡ record {
          method = method.now;
          target = target.now;
          minor = minor;
          fields = [];
        }) }
    {
        let mut bytes = Vec::new(alloc);
        let line = put_parts(&mut bytes, method, target)?;
        Ok(Head {
            bytes,
            line,
            minor,
            places: Vec::new(alloc),
        })
    }

    /// The method.
    pub fn method(&self) -> &[u8]
        ensures { result.now ≡ self.now.method }
    {
        first_at(self.bytes.as_slice(), self.line)
    }

    /// The target.
    pub fn target(&self) -> &[u8]
        ensures { result.now ≡ self.now.target }
    {
        second_at(self.bytes.as_slice(), self.line)
    }

    /// The minor version.
    pub fn minor(&self) -> u8
        ensures { result ≡ self.now.minor }
    {
        self.minor
    }

    /// The fields.
    pub fn fields(&self) -> Fields<'_>
        ensures { result ≡ self.now.fields }
    {
        fields_at(self.bytes.as_slice(), self.places.as_slice())
    }

    /// What the fields say of the request.
    pub fn marks(&self) -> Marks<'_>
        ensures { AreMarks self.now.fields result }
    {
        marks_of(self.bytes.as_slice(), self.places.as_slice())
    }

    /// The host that is asked for.
    pub fn host(&self) -> &[u8]
        ensures { result.now ≡ host_of self.now }
    {
        let target = self.target();
        if has_scheme(target) {
            authority_of(target)
        } else {
            first_value(self.bytes.as_slice(), self.places.as_slice(), b"host")
        }
    }
}

/// What an input begins with: a head and its length, none yet, or none whatever follows.
#[derive(Drop)]
pub(crate) enum HeadRead {
    Whole(Head, usize),
    Partial,
    Hopeless,
}

// Writes a field, with its name in lower case.
fn put_field(out: &mut Vec<u8>, bytes: &[u8], header: &HeaderSpan) -> Result<Place, NoMemory>
    requires { IsHeaderWithin (length bytes.now) header.now }
    ensures { IfOk result (λ place. let field = field_of (header_bytes bytes.now header.now) in
        IsWritten out.old.items field.name field.value out.new.items place) }
{
    put_lowered_parts(out, header.name.of(bytes), header.value.of(bytes))
}

// Writes the fields of a head.
fn put_fields(
    alloc: Global,
    out: &mut Vec<u8>,
    bytes: &[u8],
    headers: &[HeaderSpan],
) -> Result<Vec<Place>, NoMemory>
    requires { All (IsHeaderWithin (length bytes.now)) headers.now }
    ensures { IfOk result (λ places. HasFields out.old.items out.new.items places.items
        (map field_of (map (header_bytes bytes.now) headers.now))) }
{
    let mut places = Vec::with_capacity(alloc, headers.len())?;
    for header in headers {
        places.push(put_field(out, bytes, header)?)?;
    }
    Ok(places)
}

// The head that was found in the bytes.
fn kept_head(
    alloc: Global,
    bytes: &[u8],
    headers: &[HeaderSpan],
    spans: RequestSpans,
) -> Result<Head, NoMemory>
    requires { IsRequestWithin bytes.now headers.now spans }
    ensures { IfOk result (λ head. head ≡ head_at bytes.now headers.now spans) }
{
    let mut kept = Vec::with_capacity(alloc, spans.len)?;
    let line = put_parts(&mut kept, spans.method.of(bytes), spans.path.of(bytes))?;
    let places = put_fields(alloc, &mut kept, bytes, &headers[..spans.headers])?;
    Ok(Head {
        bytes: kept,
        line,
        minor: spans.version,
        places,
    })
}

// The head at the front of bytes that are no more than a head may have, in room for so many fields. `None` where it would have more,
// or where there is none whatever follows.
fn read_within(
    alloc: Global,
    bytes: &[u8],
    headers: &mut [HeaderSpan],
) -> Result<Option<HeadRead>, NoMemory>
    requires short { length bytes.now ≤ MAX_HEAD_BYTES }
    requires room { length headers.old ≤ MAX_HEAD_FIELDS }
    ensures some { IfOk result (λ found. IfSome found (IsHeadRead bytes.now)) }
    ensures none { IfOk result (λ found. IfNone found (RequestOverflows (length headers.old) bytes.now)) }
{
    match parse_request(bytes, headers) {
        Ok(Status::Complete(spans)) => {
            let head = kept_head(alloc, bytes, headers, spans)?;
            Ok(Some(HeadRead::Whole(head, spans.len)))
        }
        Ok(Status::Partial) => Ok(Some(HeadRead::Partial)),
        Err(_) => Ok(None),
    }
}

// The same with room for as many fields as a head may have.
fn read_any(alloc: Global, bytes: &[u8]) -> Result<HeadRead, NoMemory>
    requires { length bytes.now ≤ MAX_HEAD_BYTES }
    ensures { IfOk result (IsHeadRead bytes.now) }
{
    let mut headers = [EMPTY_HEADER_SPAN; MAX_HEAD_FIELDS];
    match read_within(alloc, bytes, &mut headers)? {
        Some(read) => Ok(read),
        None => Ok(HeadRead::Hopeless),
    }
}

// The same, at first with the room that mostly suffices, which is sooner cleared.
fn read_head(alloc: Global, bytes: &[u8]) -> Result<HeadRead, NoMemory>
    requires { length bytes.now ≤ MAX_HEAD_BYTES }
    ensures { IfOk result (IsHeadRead bytes.now) }
{
    let mut headers = [EMPTY_HEADER_SPAN; USUAL_HEAD_FIELDS];
    match read_within(alloc, bytes, &mut headers)? {
        Some(read) => Ok(read),
        None => read_any(alloc, bytes),
    }
}

/// The head at the front of an input.
pub(crate) fn read_front(alloc: Global, bytes: &[u8]) -> Result<HeadRead, NoMemory>
    ensures { IfOk result (IsFrontRead bytes.now) }
{
    let front = front_of(bytes, MAX_HEAD_BYTES);
    let read = read_head(alloc, front)?;
    match read {
        HeadRead::Whole(head, len) => Ok(HeadRead::Whole(head, len)),
        HeadRead::Partial => {
            if bytes.len() >= MAX_HEAD_BYTES {
                Ok(HeadRead::Hopeless)
            } else {
                Ok(HeadRead::Partial)
            }
        }
        HeadRead::Hopeless => Ok(HeadRead::Hopeless),
    }
}
