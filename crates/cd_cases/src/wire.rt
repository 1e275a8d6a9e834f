//! The bytes of connections: requests that are found in them, and answers that are written.
//!
//!     {"input": BYTES, "found": BYTES}
//!     {"input": BYTES, "open": true, "found": BYTES}      where the input has not ended
//!     {"input": BYTES, "pieces": [1000], "found": BYTES}
//!
//! Each request is found as a line of its parts, each with a `|` after it: method, target, path, query (`-` where there is
//! none), host, minor version, `close` or `keep`, body. The last line is `clean`, `cut` or `refused STATUS FAULT`, or nothing
//! where more may come. The input is pushed whole, and again in pieces of each of the sizes, or byte by byte where there are none.
//!
//!     {"fields": BYTES, "found": BYTES}       the names and values of the first request's fields, as `a=b|`
//!     {"render": {"status": N, "fields": [[NAME, VALUE], ..], "body": BYTES, "close": TRUTH}, "head": TRUTH, "close": TRUTH, "answered": BYTES}
//!     {"refusal": STATUS, "answered": BYTES}
use cd_rows::{
    InPieces, Outcome, RowFault, bytes_at, bytes_of, find, found, found_in_pieces, is_true,
    number_of, only,
};
use cd_text::{List, NoMemory, Octets};
use cd_tree::{SharedText, Tree};
use cd_wire::{Answer, Field, Fields, Intake, Lent, Next, Request, refusal, render};
use std::alloc::Global;

fn answered(bytes: Octets) -> Outcome {
    Outcome {
        member: "answered",
        bytes,
    }
}

pub fn input_outcome(alloc: Global, row: &Tree) -> Result<Outcome, RowFault> {
    only(alloc, row, "input open pieces found")?;
    let bytes = bytes_at(alloc, row, "input")?;
    let input = Input {
        bytes: bytes.as_slice(),
        ends: !is_true(row, "open")?,
    };
    let whole = input.found(alloc, bytes.len())?;
    found_in_pieces(alloc, row, &input, whole)
}

/// The input of a connection.
#[derive(Drop)]
struct Input<'a> {
    bytes: &'a [u8],
    ends: bool,
}

impl<'a> InPieces for Input<'a> {
    fn found(&self, alloc: Global, size: usize) -> Result<Octets, NoMemory> {
        let mut intake = Intake::new(alloc);
        let mut out = Octets::new(alloc);
        for piece in self.bytes.chunks(size.max(1)) {
            intake.push(piece)?;
            if take_all(alloc, &mut intake, false, &mut out)? {
                return Ok(out);
            }
        }
        if self.ends {
            take_all(alloc, &mut intake, true, &mut out)?;
        }
        Ok(out)
    }
}

// Takes what there is, and answers whether that is the end of the requests.
fn take_all(
    alloc: Global,
    intake: &mut Intake,
    ended: bool,
    out: &mut Octets,
) -> Result<bool, NoMemory> {
    for _ in 0..100u8 {
        let next = intake.next(ended)?;
        if put_next(alloc, out, &next)? {
            return Ok(!matches!(next, Next::More));
        }
    }
    out.append(b"more requests than are counted")?;
    Ok(true)
}

// Writes what is found, and answers whether nothing further is to be found for now.
fn put_next(alloc: Global, out: &mut Octets, next: &Next) -> Result<bool, NoMemory> {
    match next {
        Next::Request(request) => put_request(out, request)?,
        Next::More => {}
        Next::End => out.append(b"clean")?,
        Next::Cut => out.append(b"cut")?,
        Next::Refused(fault) => {
            let words = format!(in alloc; "refused {} {:?}", fault.status(), fault)?;
            out.append(words.as_bytes())?;
        }
    }
    Ok(!matches!(next, Next::Request(_)))
}

fn put_request(out: &mut Octets, request: &Request) -> Result<(), NoMemory> {
    let query = request.query().unwrap_or(b"-");
    let minor: &[u8] = if request.minor() == 0 { b"0" } else { b"1" };
    let close: &[u8] = if request.close() { b"close" } else { b"keep" };
    let parts: [&[u8]; 8] = [
        request.method(),
        request.target(),
        request.path(),
        query,
        request.host(),
        minor,
        close,
        request.body(),
    ];
    for part in parts {
        out.append(part)?;
        out.push(b'|')?;
    }
    out.push(b'\n')
}

pub fn fields_outcome(alloc: Global, row: &Tree) -> Result<Outcome, RowFault> {
    only(alloc, row, "fields found")?;
    let bytes = bytes_at(alloc, row, "fields")?;
    match first_request(alloc, bytes.as_slice())? {
        Some(request) => Ok(found(fields_of(alloc, request.fields())?)),
        None => Err(RowFault::Malformed("no request")),
    }
}

fn first_request(alloc: Global, bytes: &[u8]) -> Result<Option<Request>, NoMemory> {
    let mut intake = Intake::new(alloc);
    intake.push(bytes)?;
    match intake.next(true)? {
        Next::Request(request) => Ok(Some(request)),
        _ => Ok(None),
    }
}

fn fields_of(alloc: Global, fields: Fields<'_>) -> Result<Octets, NoMemory> {
    let mut out = Octets::new(alloc);
    for field in fields {
        put_field(&mut out, &field)?;
    }
    Ok(out)
}

fn put_field(out: &mut Octets, field: &Field<'_>) -> Result<(), NoMemory> {
    out.append(field.name.as_slice())?;
    out.push(b'=')?;
    out.append(field.value.as_slice())?;
    out.push(b'|')
}

pub fn render_outcome(alloc: Global, row: &Tree) -> Result<Outcome, RowFault> {
    only(alloc, row, "render head close answered")?;
    match find(row, "render") {
        Some(tree) => rendered(alloc, row, &answer_of(alloc, tree)?),
        None => Err(RowFault::Malformed("no answer")),
    }
}

fn rendered(alloc: Global, row: &Tree, answer: &Answer<'_>) -> Result<Outcome, RowFault> {
    let head = is_true(row, "head")?;
    let close = is_true(row, "close")?;
    Ok(answered(render(alloc, answer, head, close)?))
}

fn answer_of(alloc: Global, tree: &Tree) -> Result<Answer<'static>, RowFault> {
    only(alloc, tree, "status fields body close")?;
    let status = status_of(find(tree, "status"))?;
    let close = is_true(tree, "close")?;
    let body = Lent::octets(bytes_at(alloc, tree, "body")?);
    let fields = answer_fields(alloc, find(tree, "fields"))?;
    Ok(Answer {
        status,
        fields,
        body,
        close,
    })
}

fn status_of(tree: Option<&Tree>) -> Result<u16, RowFault> {
    match tree {
        Some(number) => number_of(number),
        None => Err(RowFault::Malformed("no status")),
    }
}

fn answer_fields(alloc: Global, pairs: Option<&Tree>) -> Result<List<Field<'static>>, RowFault> {
    let mut fields = List::new(alloc);
    if let Some(Tree::Items(pairs)) = pairs {
        for pair in pairs.as_slice() {
            fields.push(field_of(alloc, pair)?)?;
        }
    }
    Ok(fields)
}

fn field_of(alloc: Global, pair: &Tree) -> Result<Field<'static>, RowFault> {
    let Tree::Items(pair) = pair else {
        return Err(RowFault::Malformed("a field that is no pair"));
    };
    match pair.as_slice() {
        [Tree::Text(name), value] => named(alloc, name, value),
        _ => Err(RowFault::Malformed("a field that is no pair")),
    }
}

fn named(alloc: Global, name: &SharedText, value: &Tree) -> Result<Field<'static>, RowFault> {
    let value = Lent::octets(bytes_of(alloc, value)?);
    Ok(Field {
        name: Lent::text(name.copy(alloc)?),
        value,
    })
}

pub fn refusal_outcome(alloc: Global, row: &Tree) -> Result<Outcome, RowFault> {
    only(alloc, row, "refusal answered")?;
    let bytes = match status_of(find(row, "refusal"))? {
        400 => refusal(400),
        413 => refusal(413),
        501 => refusal(501),
        503 => refusal(503),
        _ => return Err(RowFault::Malformed("no status of a refusal")),
    };
    Ok(answered(Octets::from_slice(alloc, bytes)?))
}
