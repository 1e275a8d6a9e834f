//! The kinds of rows: each is named by a member.
ghost use Rattle.cd_tree.specs.Tree.{IsSound};

use crate::configurations::configuration_outcome;
use crate::deciding::decision_outcome;
use crate::fill::fill_outcome;
use crate::parts::{
    error_subroutes_outcome, expanded_routes_outcome, listen_outcome, names_outcome,
};
use crate::scene::scene_outcome;
use crate::servers::{
    handle_outcome, line_outcome, match_outcome, routes_outcome, server_outcome,
    server_text_outcome,
};
use crate::words::{
    limit_outcome, module_id_of_outcome, module_id_outcome, pattern_outcome, refusal_outcome,
};
use cd_rows::{Kinds, Outcome, RowFault, has};
use cd_tree::Tree;
use std::alloc::Global;

pub struct SiteKinds;

impl Kinds for SiteKinds {
    fn outcome(&self, alloc: Global, row: &Tree) -> Result<Outcome, RowFault> {
        if has(row, "fill") {
            fill_outcome(alloc, row)
        } else if has(row, "scene") {
            scene_outcome(alloc, row)
        } else if has(row, "pattern") {
            pattern_outcome(alloc, row)
        } else {
            outcome_of_words(alloc, row)
        }
    }
}

fn outcome_of_words(alloc: Global, row: &Tree) -> Result<Outcome, RowFault>
    requires { IsSound row.now }
{
    if has(row, "module_id") {
        module_id_outcome(alloc, row)
    } else if has(row, "module_id_of") {
        module_id_of_outcome(alloc, row)
    } else if has(row, "refusal_of") {
        refusal_outcome(alloc, row)
    } else if has(row, "limit") {
        limit_outcome(alloc, row)
    } else {
        outcome_of_server(alloc, row)
    }
}

fn outcome_of_server(alloc: Global, row: &Tree) -> Result<Outcome, RowFault>
    requires { IsSound row.now }
{
    if has(row, "server") {
        server_outcome(alloc, row)
    } else if has(row, "server_text") {
        server_text_outcome(alloc, row)
    } else if has(row, "routes") {
        routes_outcome(alloc, row)
    } else if has(row, "match") {
        match_outcome(alloc, row)
    } else if has(row, "line_after") {
        line_outcome(alloc, row)
    } else if has(row, "handle") {
        handle_outcome(alloc, row)
    } else {
        outcome_of_part(alloc, row)
    }
}

fn outcome_of_part(alloc: Global, row: &Tree) -> Result<Outcome, RowFault>
    requires { IsSound row.now }
{
    if has(row, "asked") {
        decision_outcome(alloc, row)
    } else if has(row, "listen") {
        listen_outcome(alloc, row)
    } else if has(row, "names_in") {
        names_outcome(alloc, row)
    } else if has(row, "error_subroutes") {
        error_subroutes_outcome(alloc, row)
    } else if has(row, "expanded_routes") {
        expanded_routes_outcome(alloc, row)
    } else if has(row, "configuration") {
        configuration_outcome(alloc, row)
    } else {
        Err(RowFault::Malformed("no kind that is known"))
    }
}
