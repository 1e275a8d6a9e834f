//! The kinds of rows, each named by a member that no other kind has.
//!
//! There is a function for every few kinds, since each condition is known in all that come after it.
ghost use Rattle.cd_tree.specs.Tree.{IsSound};

use crate::addresses::{address_outcome, addresses_outcome};
use crate::devices::{fixtures_outcome, lane_outcome, sink_outcome, source_outcome};
use crate::edits::{edit_outcome, look_outcome};
use crate::histories::history_outcome;
use crate::ids::find_outcome;
use crate::pools::pool_outcome;
use crate::storms::storm_outcome;
use crate::tags::{holds_outcome, if_match_outcome, tag_outcome};
use crate::texts::{decimal_outcome, number_outcome, parts_outcome, rising_outcome};
use crate::trees::{json_fault_outcome, need_outcome, nesting_outcome, read_outcome};
use crate::wire::{fields_outcome, input_outcome, refusal_outcome, render_outcome};
use cd_rows::{Kinds, Outcome, RowFault, has};
use cd_tree::Tree;
use std::alloc::Global;

/// The kinds of this program.
pub struct Cases;

impl Kinds for Cases {
    fn outcome(&self, alloc: Global, row: &Tree) -> Result<Outcome, RowFault> {
        of_edits(alloc, row)
    }
}

fn of_edits(alloc: Global, row: &Tree) -> Result<Outcome, RowFault>
    requires { IsSound row.now }
{
    if has(row, "edit") {
        edit_outcome(alloc, row)
    } else if has(row, "look") {
        look_outcome(alloc, row)
    } else {
        of_trees(alloc, row)
    }
}

fn of_trees(alloc: Global, row: &Tree) -> Result<Outcome, RowFault>
    requires { IsSound row.now }
{
    if has(row, "read") {
        read_outcome(alloc, row)
    } else if has(row, "nesting") {
        nesting_outcome(alloc, row)
    } else if has(row, "json_fault") {
        json_fault_outcome(alloc, row)
    } else if has(row, "need") {
        need_outcome(alloc, row)
    } else {
        of_tags(alloc, row)
    }
}

fn of_tags(alloc: Global, row: &Tree) -> Result<Outcome, RowFault>
    requires { IsSound row.now }
{
    if has(row, "tag") {
        tag_outcome(alloc, row)
    } else if has(row, "holds") {
        holds_outcome(alloc, row)
    } else if has(row, "if_match") {
        if_match_outcome(alloc, row)
    } else if has(row, "find") {
        find_outcome(alloc, row)
    } else {
        of_wire(alloc, row)
    }
}

fn of_wire(alloc: Global, row: &Tree) -> Result<Outcome, RowFault> {
    if has(row, "input") {
        input_outcome(alloc, row)
    } else if has(row, "fields") {
        fields_outcome(alloc, row)
    } else if has(row, "render") {
        render_outcome(alloc, row)
    } else if has(row, "refusal") {
        refusal_outcome(alloc, row)
    } else {
        of_texts(alloc, row)
    }
}

fn of_texts(alloc: Global, row: &Tree) -> Result<Outcome, RowFault> {
    if has(row, "decimal") {
        decimal_outcome(alloc, row)
    } else if has(row, "number") {
        number_outcome(alloc, row)
    } else if has(row, "parts") {
        parts_outcome(alloc, row)
    } else if has(row, "rising") {
        rising_outcome(alloc, row)
    } else {
        of_addresses(alloc, row)
    }
}

fn of_addresses(alloc: Global, row: &Tree) -> Result<Outcome, RowFault> {
    if has(row, "addresses") {
        addresses_outcome(alloc, row)
    } else if has(row, "address") {
        address_outcome(alloc, row)
    } else {
        of_histories(alloc, row)
    }
}

fn of_histories(alloc: Global, row: &Tree) -> Result<Outcome, RowFault> {
    if has(row, "history") {
        history_outcome(alloc, row)
    } else if has(row, "storm") {
        storm_outcome(alloc, row)
    } else if has(row, "pool") {
        pool_outcome(alloc, row)
    } else {
        of_devices(alloc, row)
    }
}

fn of_devices(alloc: Global, row: &Tree) -> Result<Outcome, RowFault> {
    if has(row, "source") {
        source_outcome(alloc, row)
    } else if has(row, "sink") {
        sink_outcome(alloc, row)
    } else if has(row, "fixtures") {
        fixtures_outcome(alloc, row)
    } else if has(row, "lane") {
        lane_outcome(alloc, row)
    } else {
        Err(RowFault::Malformed("no kind that is known"))
    }
}
