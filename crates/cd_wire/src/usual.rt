//! The lines that most answers have, as bytes: their fields are compared, in place of being sorted and written.
ghost use Rattle.std.specs.Prelude.{◌≡◌, ◌∷◌, [], true, filter, IfSome};
ghost use Rattle.std.specs.List.{flat_map};
ghost use Rattle.cd_wire.specs.Render.{is_sent, by_name, field_line};
ghost use Rattle.cd_wire.specs.Usual.{server, plain_type};

use crate::fields::Field;

fn is_server(field: &Field<'_>) -> bool
    ensures { result ≡ true → field.now ≡ server }
{
    field.value.equals(b"Caddy") && field.name.equals(b"server")
}

fn is_plain_type(field: &Field<'_>) -> bool
    ensures { result ≡ true → field.now ≡ plain_type }
{
    field.value.equals(b"text/plain; charset=utf-8") && field.name.equals(b"content-type")
}

fn lines_of_one(field: &Field<'_>) -> Option<&'static [u8]>
    ensures { IfSome result (λ lines. lines.now ≡ flat_map field_line (by_name (filter is_sent (field.now ∷ [])))) }
{
    if is_server(field) {
        Some(b"Server: Caddy\r\n")
    } else {
        None
    }
}

fn lines_of_two(first: &Field<'_>, second: &Field<'_>) -> Option<&'static [u8]>
    ensures { IfSome result (λ lines. lines.now ≡ flat_map field_line (by_name (filter is_sent (first.now ∷ second.now ∷ [])))) }
{
    if is_server(first) && is_plain_type(second) {
        Some(b"Content-Type: text/plain; charset=utf-8\r\nServer: Caddy\r\n")
    } else {
        None
    }
}

/// The lines of the fields of an answer, where these are the usual ones: the name of the server, and the type of a plain text
/// after it.
pub(crate) fn usual_lines(fields: &[Field<'_>]) -> Option<&'static [u8]>
    ensures { IfSome result (λ lines. lines.now ≡ flat_map field_line (by_name (filter is_sent fields.now))) }
{
    match fields {
        [field] => lines_of_one(field),
        [first, second] => lines_of_two(first, second),
        _ => None,
    }
}
