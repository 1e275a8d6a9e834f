//! Fields by name, with texts for their values.
ghost use Rattle.std.specs.Prelude.{◌≡◌, ◌&&◌, nat_lt, nat_le, length, IfOk};
ghost use Rattle.std.specs.List.{list_all};
ghost use Rattle.http_header.specs.Token.{token_test};
ghost use Rattle.http_header.specs.FieldName.{is_field_name};
ghost use Rattle.cd_handlers.specs.FieldValues.{field_values, field_list, request_field, request_field_list, by_name, fields_or_none, bare, request_fields_or_none};

use cd_module::{LoadFault, LoadKind, Named, Settings, object_by_name};
use cd_text::{List, NoMemory, Text};
use cd_tree::{Place, Tree};
use http_header::is_token_char;
use std::alloc::Global;

/// The most bytes of a field's name.
pub(crate) const MAX_NAME_BYTES: usize = 65_535;

/// A field and the texts of the values that it gets.
#[derive(Debug, Drop)]
pub struct FieldValues {
    /// The name, in lower case.
    pub name: Text,
    /// The texts, which are filled for each request.
    pub values: List<Text>,
}

/// Fields by rising name. Those whose names differ in case alone follow one another as their names rise as written.
#[derive(Debug, Drop)]
pub struct FieldList {
    pub fields: List<FieldValues>,
}

#[tactic(auto, unfolding(http_header::specs::Token::is_token_byte))]
fn is_name_byte(byte: u8) -> bool
    ensures { result ≡ token_test byte }
{
    is_token_char(byte)
}

fn are_name_bytes(bytes: &[u8]) -> bool
    ensures { result ≡ list_all token_test bytes.now }
{
    bytes.iter().all(|byte| is_name_byte(*byte))
}

// Whether a field may have this name (RFC 9110, section 5.1).
fn is_field_name(name: &[u8]) -> bool
    ensures { result ≡ is_field_name name.now }
{
    name.len() > 0 && are_name_bytes(name) && name.len() <= MAX_NAME_BYTES
}

impl Named for FieldValues {
    ghost named = { field_values };

    #[tactic(auto, unfolding(crate::specs::FieldValues::field_values))]
    fn read_named(
        alloc: Global,
        name: &Text,
        tree: &Tree,
        at: &Place<'_>,
    ) -> Result<FieldValues, LoadFault> {
        if !is_field_name(name.as_str().as_bytes()) {
            return Err(LoadFault::at(alloc, LoadKind::BadValue, at));
        }
        let values = List::<Text>::read(alloc, tree, at)?;
        let name = Text::folded(alloc, name.as_str())?;
        Ok(FieldValues { name, values })
    }
}

fn by_name(fields: List<FieldValues>) -> Result<List<FieldValues>, NoMemory>
    ensures { IfOk result (λ sorted. sorted ≡ by_name fields) }
{
    let mut sorted = fields.into_vec();
    sorted.sort_by(|one, other| one.name.cmp(&other.name))?;
    Ok(List::from_vec(sorted))
}

impl Settings for FieldList {
    ghost reader = { field_list };

    #[tactic(auto, unfolding(crate::specs::FieldValues::field_list))]
    fn read(alloc: Global, tree: &Tree, at: &Place<'_>) -> Result<FieldList, LoadFault> {
        let fields = object_by_name::<FieldValues>(alloc, tree, at)?;
        let fields = by_name(fields)?;
        Ok(FieldList { fields })
    }
}

/// The fields, and none where none are given.
pub(crate) fn fields_or_none(alloc: Global, list: Option<FieldList>) -> List<FieldValues>
    ensures { result ≡ fields_or_none list }
{
    match list {
        Some(list) => list.fields,
        None => List::new(alloc),
    }
}

/// A field of a request and the texts of the values that it gets. It is not `host`, which says whom the request is for.
#[derive(Debug, Drop)]
pub(crate) struct RequestField {
    field: FieldValues,
}

impl Named for RequestField {
    ghost named = { request_field };

    #[tactic(auto, unfolding(crate::specs::FieldValues::request_field))]
    fn read_named(
        alloc: Global,
        name: &Text,
        tree: &Tree,
        at: &Place<'_>,
    ) -> Result<RequestField, LoadFault> {
        if name.as_str().eq_ignore_ascii_case("host") {
            return Err(LoadFault::at(alloc, LoadKind::BadValue, at));
        }
        let field = FieldValues::read_named(alloc, name, tree, at)?;
        Ok(RequestField { field })
    }
}

fn bare(alloc: Global, fields: List<RequestField>) -> Result<List<FieldValues>, NoMemory>
    ensures { IfOk result (λ made. made ≡ bare fields) }
{
    let mut found = List::new(alloc);
    for request in fields.into_vec() {
        let RequestField { field } = request;
        found.push(field)?;
    }
    Ok(found)
}

/// Fields of a request by rising name. None is `host`.
#[derive(Debug, Drop)]
pub(crate) struct RequestFieldList {
    pub fields: List<FieldValues>,
}

impl Settings for RequestFieldList {
    ghost reader = { request_field_list };

    #[tactic(auto, unfolding(crate::specs::FieldValues::request_field_list))]
    fn read(alloc: Global, tree: &Tree, at: &Place<'_>) -> Result<RequestFieldList, LoadFault> {
        let fields = object_by_name::<RequestField>(alloc, tree, at)?;
        let fields = by_name(bare(alloc, fields)?)?;
        Ok(RequestFieldList { fields })
    }
}

/// The fields, and none where none are given.
pub(crate) fn request_fields_or_none(
    alloc: Global,
    list: Option<RequestFieldList>,
) -> List<FieldValues>
    ensures { result ≡ request_fields_or_none list }
{
    match list {
        Some(list) => list.fields,
        None => List::new(alloc),
    }
}
