//! Texts with their placeholders replaced, in the scene of a request.
use crate::scene::{asked_of, scene_of};
use cd_fill::{FillFault, Form, Scene, fill_as};
use cd_rows::{Outcome, RowFault, bytes_at, find, has, only, refuses, says};
use cd_text::{Octets, decimal};
use cd_tree::Tree;
use std::alloc::Global;

pub fn fill_outcome(alloc: Global, row: &Tree) -> Result<Outcome, RowFault> {
    only(
        alloc,
        row,
        "fill as asked vars line error filled length refused",
    )?;
    let text = bytes_at(alloc, row, "fill")?;
    let request = asked_of(alloc, row)?;
    let scene = scene_of(alloc, row, &request)?;
    fill_in(alloc, row, text.as_slice(), &scene)
}

fn fill_in(alloc: Global, row: &Tree, text: &[u8], scene: &Scene<'_>) -> Result<Outcome, RowFault> {
    match fill_as(alloc, form_of(row)?, text, scene) {
        Ok(bytes) => filled(alloc, row, bytes),
        Err(FillFault::TooLong) => refuses(alloc, "too long"),
        Err(FillFault::NoMemory) => Err(RowFault::NoMemory),
    }
}

fn filled(alloc: Global, row: &Tree, bytes: Octets) -> Result<Outcome, RowFault> {
    if has(row, "length") {
        let length = decimal(alloc, bytes.len() as u64)?;
        says(alloc, "length", length.as_str())
    } else {
        Ok(Outcome {
            member: "filled",
            bytes,
        })
    }
}

fn form_of(row: &Tree) -> Result<Form, RowFault> {
    match find(row, "as") {
        None => Ok(Form::Plain),
        Some(Tree::Text(form)) => form_named(form.as_str()),
        _ => Err(RowFault::Malformed("no form")),
    }
}

fn form_named(form: &str) -> Result<Form, RowFault> {
    match form {
        "plain" => Ok(Form::Plain),
        "path" => Ok(Form::Path),
        "query" => Ok(Form::Query),
        _ => Err(RowFault::Malformed("no form")),
    }
}
