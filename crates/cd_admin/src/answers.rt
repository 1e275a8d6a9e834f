//! The answers of the admin API.
ghost use Rattle.std.specs.Prelude.{◌≡◌, ◌∷◌, [], false, IfOk};
ghost use Rattle.cd_tree.specs.Tree.{text};
ghost use Rattle.cd_admin.specs.Answers.{field, json_type, line, error_tree, allow_fields, refusal, shown, done};

use crate::denial::Denial;
use cd_text::{List, NoMemory, Octets, Text};
use cd_tree::{Member, Shared, SharedText, Tree, print_ordered};
use cd_wire::{Answer, Field, Lent};
use std::alloc::Global;

/// A refusal, with its words as JSON.
pub(crate) fn refusal(alloc: Global, denial: &Denial) -> Result<Answer<'static>, NoMemory>
    ensures { IfOk result (λ answer. answer ≡ refusal denial.now) }
{
    let status = denial.status();
    let fields = refusal_fields(alloc, denial)?;
    let body = Lent::octets(error_line(alloc, denial.words(alloc)?)?);
    Ok(Answer {
        status,
        fields,
        body,
        close: false,
    })
}

/// A value by its compact text, with its tag.
pub(crate) fn shown(alloc: Global, tag: &Text, value: &Text) -> Result<Answer<'static>, NoMemory>
    ensures { IfOk result (λ answer. answer ≡ shown tag.now value.now) }
{
    let mut fields = List::new(alloc);
    fields.push(json_type())?;
    fields.push(field(alloc, "etag", tag.as_str())?)?;
    let body = Lent::octets(line(alloc, value)?);
    Ok(Answer {
        status: 200,
        fields,
        body,
        close: false,
    })
}

/// That what was asked for is so: 200, without fields or a body. It takes no memory.
pub fn done(alloc: Global) -> Answer<'static>
    ensures { result ≡ done }
{
    Answer {
        status: 200,
        fields: List::new(alloc),
        body: Lent::shared(b""),
        close: false,
    }
}

/// An answer with this status and these words, as refusals have them: `{"error":WORDS}` and a newline.
pub fn error_answer(alloc: Global, status: u16, words: Text) -> Result<Answer<'static>, NoMemory>
    ensures { IfOk result (λ answer. answer ≡ record { status = status; fields = json_type ∷ []; body = line (text (error_tree words)); close = false }) }
{
    let mut fields = List::new(alloc);
    fields.push(json_type())?;
    let body = Lent::octets(error_line(alloc, words)?);
    Ok(Answer {
        status,
        fields,
        body,
        close: false,
    })
}

fn field(alloc: Global, name: &'static str, value: &str) -> Result<Field<'static>, NoMemory>
    ensures { IfOk result (λ made. made ≡ field name.now value.now) }
{
    Ok(Field {
        name: Lent::shared(name.as_bytes()),
        value: Lent::octets(Octets::from_slice(alloc, value.as_bytes())?),
    })
}

fn json_type() -> Field<'static>
    ensures { result ≡ json_type }
{
    Field {
        name: Lent::shared(b"content-type"),
        value: Lent::shared(b"application/json"),
    }
}

fn refusal_fields(alloc: Global, denial: &Denial) -> Result<List<Field<'static>>, NoMemory>
    ensures { IfOk result (λ made. made ≡ json_type ∷ allow_fields denial.now) }
{
    let mut fields = List::new(alloc);
    fields.push(json_type())?;
    if let Denial::OtherMethod(methods) = denial {
        fields.push(field(alloc, "allow", methods.names())?)?;
    }
    Ok(fields)
}

/// A text and a newline.
fn line(alloc: Global, text: &Text) -> Result<Octets, NoMemory>
    ensures { IfOk result (λ made. made ≡ line text.now) }
{
    let mut body = Octets::from_slice(alloc, text.as_str().as_bytes())?;
    body.push(b'\n')?;
    Ok(body)
}

/// The words as JSON, and a newline.
fn error_line(alloc: Global, words: Text) -> Result<Octets, NoMemory>
    ensures { IfOk result (λ made. made ≡ line (text (error_tree words))) }
{
    let mut members = List::new(alloc);
    let key = Text::from_str(alloc, "error")?;
    members.push(Member {
        key,
        value: Tree::Text(SharedText::new(alloc, words)?),
    })?;
    let printed = print_ordered(alloc, &Tree::Object(Shared::new(alloc, members)?))?;
    line(alloc, &printed)
}
