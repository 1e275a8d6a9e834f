//! Answers as rows want them.
use cd_rows::{Outcome, RowFault, says, text_of, tree_of};
use cd_text::{NoMemory, Octets, decimal};
use cd_wire::{Answer, Request, render};
use std::alloc::Global;

/// The answer as it is sent, or what it says.
pub fn said(
    alloc: Global,
    whole: bool,
    answer: &Answer<'_>,
    request: &Request,
) -> Result<Outcome, RowFault> {
    if whole {
        let head = request.method() == b"HEAD".as_slice();
        let bytes = render(alloc, answer, head, request.close())?;
        Ok(Outcome {
            member: "answered",
            bytes,
        })
    } else {
        in_short(alloc, answer)
    }
}

// A success without fields and a body is that nothing changes. An answer with a tag is a value: its tag, a newline, and the body.
// All else is a refusal.
fn in_short(alloc: Global, answer: &Answer<'_>) -> Result<Outcome, RowFault> {
    if answer.status == 200 && answer.fields.is_empty() && answer.body.as_slice().is_empty() {
        return says(alloc, "ends", "unchanged");
    }
    match value_of(answer, "etag") {
        Some(tag) => Ok(Outcome {
            member: "found",
            bytes: tagged(alloc, tag, answer.body.as_slice())?,
        }),
        None => refused(alloc, answer),
    }
}

fn tagged(alloc: Global, tag: &[u8], body: &[u8]) -> Result<Octets, NoMemory> {
    let mut out = Octets::from_slice(alloc, tag)?;
    out.push(b'\n')?;
    out.append(body)?;
    Ok(out)
}

// The status, the words, and which methods are taken instead.
fn refused(alloc: Global, answer: &Answer<'_>) -> Result<Outcome, RowFault> {
    let tree = tree_of(alloc, answer.body.as_slice())?;
    let words = text_of(&tree, "error")?;
    let status = decimal(alloc, u64::from(answer.status))?;
    let mut out = Octets::from_slice(alloc, status.as_str().as_bytes())?;
    out.push(b' ')?;
    out.append(words.as_bytes())?;
    put_allowed(answer, &mut out)?;
    Ok(Outcome {
        member: "refused",
        bytes: out,
    })
}

fn put_allowed(answer: &Answer<'_>, out: &mut Octets) -> Result<(), NoMemory> {
    match value_of(answer, "allow") {
        Some(methods) => {
            out.append(b"; allowed are ")?;
            out.append(methods)
        }
        None => Ok(()),
    }
}

// The value of the first field of a name in lower case.
fn value_of<'a>(answer: &'a Answer<'_>, name: &str) -> Option<&'a [u8]> {
    for field in answer.fields.as_slice() {
        if field.name.equals(name.as_bytes()) {
            return Some(field.value.as_slice());
        }
    }
    None
}
