//! The decision on the request of a row, under its configuration.
ghost use Rattle.cd_tree.specs.Tree.{IsSound};

use crate::asking::request_of;
use crate::saying::said;
use cd_admin::{Decision, decide};
use cd_module::LoadFault;
use cd_module_set::{Loaded, ModuleSet};
use cd_rows::{Outcome, RowFault, bytes_at, gives, has, needed, only, says, tree_of};
use cd_standard::Standard;
use cd_text::Octets;
use cd_tree::{Tree, print};
use cd_wire::Request;
use std::alloc::Global;

// The configuration of a row that has none.
const HELLO: &[u8] =
    br#"{"apps":{"http":{"servers":{"s":{"listen":[":8080"],"routes":[{"handle":[{"handler":"static_response","body":"hi"}]}]}}}}}"#;

/// What a request to the admin API comes to.
pub fn decision_outcome(alloc: Global, row: &Tree) -> Result<Outcome, RowFault>
    requires { IsSound row.now }
{
    only(
        alloc,
        row,
        "configuration configuration_bytes asked host fields body body_bytes answered found refused gives gives_text ends",
    )?;
    let request = request_of(alloc, row)?;
    let loaded = loaded_under(alloc, row)?;
    decided(alloc, row, &loaded, &request)
}

fn loaded_under(alloc: Global, row: &Tree) -> Result<Loaded<Standard>, RowFault>
    requires { IsSound row.now }
{
    let text = configuration_text(alloc, row)?;
    let tree = tree_of(alloc, text.as_slice())?;
    match Standard::load(alloc, tree) {
        Ok(loaded) => Ok(loaded),
        Err(LoadFault::Refused(_)) => Err(RowFault::Malformed("a configuration with a fault")),
        Err(LoadFault::NoMemory) => Err(RowFault::NoMemory),
    }
}

fn configuration_text(alloc: Global, row: &Tree) -> Result<Octets, RowFault>
    requires { IsSound row.now }
{
    if has(row, "configuration") {
        text_at(alloc, row, "configuration")
    } else if has(row, "configuration_bytes") {
        bytes_at(alloc, row, "configuration_bytes")
    } else {
        Ok(Octets::from_slice(alloc, HELLO)?)
    }
}

/// The compact text of a member.
pub fn text_at(alloc: Global, row: &Tree, name: &str) -> Result<Octets, RowFault>
    requires { IsSound row.now }
{
    let value = needed(alloc, row, name)?;
    let text = print(alloc, value)?;
    Ok(Octets::from_slice(alloc, text.as_str().as_bytes())?)
}

fn decided(
    alloc: Global,
    row: &Tree,
    loaded: &Loaded<Standard>,
    request: &Request,
) -> Result<Outcome, RowFault> {
    match decide::<Standard>(alloc, &loaded.tree, request)? {
        Decision::Reply(answer) => said(alloc, has(row, "answered"), &answer, request),
        Decision::Replace(new) => gives(alloc, &new.tree),
        Decision::Halt => says(alloc, "ends", "halt"),
    }
}
