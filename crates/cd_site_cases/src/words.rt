//! Ids of modules, patterns, and the words of refusals.
use cd_module::{IdFormFault, Limit, LoadFault, LoadKind, ModuleId, Pattern, Refusal};
use cd_rows::{Outcome, RowFault, bytes_at, find, has, only, path_at, refuses, says, text_of};
use cd_text::{List, NoMemory, Octets, Text};
use cd_tree::{Shared, Tree};
use std::alloc::Global;

/// The text of the id that is made of these labels, or of a copy of it.
pub fn module_id_of_outcome(alloc: Global, row: &Tree) -> Result<Outcome, RowFault> {
    only(alloc, row, "module_id_of found")?;
    let Some(Tree::Items(labels)) = find(row, "module_id_of") else {
        return Err(RowFault::Malformed("labels are missing"));
    };
    let id = ModuleId::from_labels(alloc, texts_of(alloc, labels)?.as_slice())?;
    let text = id.copy(alloc)?.to_text(alloc)?;
    says(alloc, "found", text.as_str())
}

fn texts_of(alloc: Global, labels: &Shared<Tree>) -> Result<Vec<&str>, RowFault> {
    let mut texts = Vec::new(alloc);
    for label in labels.as_slice() {
        match label {
            Tree::Text(text) => texts.push(text.as_str())?,
            _ => return Err(RowFault::Malformed("a label that is no text")),
        }
    }
    Ok(texts)
}

/// Whether there may be so much of something.
pub fn limit_outcome(alloc: Global, row: &Tree) -> Result<Outcome, RowFault> {
    only(alloc, row, "limit count found refused")?;
    let limit = limit_named(text_of(row, "limit")?)?;
    match limit.allows(alloc, count_of(row)?) {
        Ok(()) => says(alloc, "found", "fine"),
        Err(LoadFault::Refused(refusal)) => {
            let words = refusal.words(alloc)?;
            refuses(alloc, words.as_str())
        }
        Err(LoadFault::NoMemory) => Err(RowFault::NoMemory),
    }
}

fn limit_named(name: &str) -> Result<Limit, RowFault> {
    match name {
        "Modules" => Ok(Limit::Modules),
        "Addresses" => Ok(Limit::Addresses),
        "Servers" => Ok(Limit::Servers),
        "ErrorSubroutes" => Ok(Limit::ErrorSubroutes),
        "ExpandedRoutes" => Ok(Limit::ExpandedRoutes),
        _ => Err(RowFault::Malformed("no limit")),
    }
}

fn count_of(row: &Tree) -> Result<usize, RowFault> {
    match find(row, "count") {
        Some(Tree::Num(number)) => Ok(number.size as usize),
        _ => Err(RowFault::Malformed("a count is missing")),
    }
}

/// The labels of an id before the last one, each after a slash, and the last one after a space.
pub fn module_id_outcome(alloc: Global, row: &Tree) -> Result<Outcome, RowFault> {
    only(alloc, row, "module_id found refused")?;
    let text = Text::from_str(alloc, text_of(row, "module_id")?)?;
    match ModuleId::read(alloc, &text) {
        Ok(id) => Ok(found(labels_of(alloc, &id)?)),
        Err(IdFormFault::BadForm) => refuses(alloc, "bad form"),
        Err(IdFormFault::NoMemory) => Err(RowFault::NoMemory),
    }
}

fn labels_of(alloc: Global, id: &ModuleId) -> Result<Octets, NoMemory> {
    let mut out = Octets::new(alloc);
    for label in id.namespace() {
        out.push(b'/')?;
        out.append(label.as_str().as_bytes())?;
    }
    if let Some(name) = id.name() {
        out.push(b' ')?;
        out.append(name.as_str().as_bytes())?;
    }
    Ok(out)
}

fn found(bytes: Octets) -> Outcome {
    Outcome {
        member: "found",
        bytes,
    }
}

/// The kind of a pattern and its literal text, or how a text fits it.
pub fn pattern_outcome(alloc: Global, row: &Tree) -> Result<Outcome, RowFault> {
    only(alloc, row, "pattern text found")?;
    let bytes = bytes_at(alloc, row, "pattern")?;
    let pattern = Pattern::of(alloc, bytes.as_slice())?;
    if has(row, "text") {
        let text = bytes_at(alloc, row, "text")?;
        says(alloc, "found", fit(&pattern, text.as_slice()))
    } else {
        Ok(found(meaning(alloc, &pattern)?))
    }
}

fn fit(pattern: &Pattern, text: &[u8]) -> &'static str {
    if pattern.fits(text) {
        "fits"
    } else if pattern.fits_in_any_case(text) {
        "fits in another case"
    } else {
        "does not fit"
    }
}

fn meaning(alloc: Global, pattern: &Pattern) -> Result<Octets, NoMemory> {
    let mut out = Octets::from_slice(alloc, kind_of(pattern))?;
    out.append(pattern.literal())?;
    Ok(out)
}

fn kind_of(pattern: &Pattern) -> &'static [u8] {
    match pattern {
        Pattern::Exact(_) => b"is ",
        Pattern::Prefix(_) => b"begins with ",
        Pattern::Suffix(_) => b"ends with ",
        Pattern::Part(_) => b"contains ",
    }
}

/// The words of a refusal.
pub fn refusal_outcome(alloc: Global, row: &Tree) -> Result<Outcome, RowFault> {
    only(alloc, row, "refusal_of about at other found")?;
    let refusal = refusal_of(alloc, row)?;
    let words = refusal.words(alloc)?;
    says(alloc, "found", words.as_str())
}

fn refusal_of(alloc: Global, row: &Tree) -> Result<Refusal, RowFault> {
    let kind = kind_named(text_of(row, "refusal_of")?)?;
    let at = path_at(alloc, row, "at")?;
    let other = path_at(alloc, row, "other")?;
    let about = text_of(row, "about")?;
    match kind {
        LoadKind::RepeatedAddress => made(LoadFault::repeated_address(alloc, about, &at)),
        LoadKind::RepeatedId => made(LoadFault::repeated_id(alloc, about, &at, &other)),
        kind => Ok(Refusal {
            kind,
            at,
            other,
            about: Text::from_str(alloc, about)?,
        }),
    }
}

fn made(fault: LoadFault) -> Result<Refusal, RowFault> {
    match fault {
        LoadFault::Refused(refusal) => Ok(refusal),
        LoadFault::NoMemory => Err(RowFault::NoMemory),
    }
}

fn kind_named(name: &str) -> Result<LoadKind, RowFault> {
    match name {
        "UnknownModule" => Ok(LoadKind::UnknownModule),
        "UnknownMember" => Ok(LoadKind::UnknownMember),
        "WrongKind" => Ok(LoadKind::WrongKind),
        "Missing" => Ok(LoadKind::Missing),
        "BadValue" => Ok(LoadKind::BadValue),
        "BadAddress" => Ok(LoadKind::BadAddress),
        "RepeatedAddress" => Ok(LoadKind::RepeatedAddress),
        "RepeatedId" => Ok(LoadKind::RepeatedId),
        "LimitReached" => Ok(LoadKind::LimitReached),
        "NamedCycle" => Ok(LoadKind::NamedCycle),
        _ => Err(RowFault::Malformed("no kind of a fault")),
    }
}
