//! What servers answer, and why others are refused.
//!
//! The rest of a server stands around a part of one: `routes`; `handle`, the handlers of its one route; `match`, the matchers of a
//! route that answers `yes`, before one that answers `no`; or `line_after`, the handlers before an answer of what is asked for then.
//! Each answer is given twice: by the server as it was read, and by the chain of its routes.
ghost use Rattle.std.specs.Prelude.{◌≡◌, false, IfOk};
ghost use Rattle.cd_routes.specs.Invoking.{HasNoCycle};
ghost use Rattle.cd_tree.specs.Tree.{IsSound};

use crate::asked::request_of;
use crate::scene::{variables_of, with_variables};
use cd_chain::Chain;
use cd_fill::Scene;
use cd_module::{LoadFault, Named, Refusal};
use cd_routes::{Server, answer_from, server_answer};
use cd_rows::{Outcome, RowFault, bytes_at, find, has, needed, only, refuses, says, tree_of};
use cd_text::{Octets, Text, decimal};
use cd_tree::{Place, Tree, print};
use cd_wire::{Answer, Request, render};
use std::alloc::Global;

pub fn server_outcome(alloc: Global, row: &Tree) -> Result<Outcome, RowFault> {
    only(alloc, row, "server asked vars answered found refused")?;
    match find(row, "server") {
        Some(tree) => outcome_by(alloc, row, tree),
        None => Err(RowFault::Malformed("no server")),
    }
}

pub fn server_text_outcome(alloc: Global, row: &Tree) -> Result<Outcome, RowFault> {
    only(alloc, row, "server_text asked vars answered found refused")?;
    let text = bytes_at(alloc, row, "server_text")?;
    outcome_by_text(alloc, row, text.as_slice())
}

pub fn routes_outcome(alloc: Global, row: &Tree) -> Result<Outcome, RowFault>
    requires { IsSound row.now }
{
    only(alloc, row, "routes asked vars answered found refused")?;
    let routes = part(alloc, row, "routes")?;
    let routes = routes.as_str();
    let text = format!(in alloc; r#"{{"listen":[":80"],"routes":{routes}}}"#)?;
    outcome_by_text(alloc, row, text.as_bytes())
}

pub fn handle_outcome(alloc: Global, row: &Tree) -> Result<Outcome, RowFault>
    requires { IsSound row.now }
{
    only(
        alloc,
        row,
        "handle errors asked vars answered found refused",
    )?;
    let handle = part(alloc, row, "handle")?;
    let handle = handle.as_str();
    let errors = errors_text(alloc, row)?;
    let errors = errors.as_str();
    let text = format!(in alloc;
        r#"{{"listen":[":80"],"routes":[{{"handle":{handle}}}],"errors":{errors}}}"#
    )?;
    outcome_by_text(alloc, row, text.as_bytes())
}

// The error routes: one with the handlers of `errors`.
fn errors_text(alloc: Global, row: &Tree) -> Result<String, RowFault>
    requires { IsSound row.now }
{
    if has(row, "errors") {
        let errors = part(alloc, row, "errors")?;
        let errors = errors.as_str();
        Ok(format!(in alloc; r#"{{"routes":[{{"handle":{errors}}}]}}"#)?)
    } else {
        Ok(String::from_str(alloc, "null")?)
    }
}

pub fn match_outcome(alloc: Global, row: &Tree) -> Result<Outcome, RowFault>
    requires { IsSound row.now }
{
    only(alloc, row, "match after asked vars answered found refused")?;
    let matchers = part(alloc, row, "match")?;
    let matchers = matchers.as_str();
    let after = route_before(alloc, row)?;
    let after = after.as_str();
    let text = format!(in alloc;
        r#"{{"listen":[":80"],"routes":[{after}{{"match":{matchers},"handle":[{{"handler":"static_response","body":"yes"}}],"terminal":true}},{{"handle":[{{"handler":"static_response","body":"no"}}]}}]}}"#
    )?;
    outcome_by_text(alloc, row, text.as_bytes())
}

// The route with the handlers of `after`, and the comma that follows it.
fn route_before(alloc: Global, row: &Tree) -> Result<String, RowFault>
    requires { IsSound row.now }
{
    if has(row, "after") {
        let after = part(alloc, row, "after")?;
        let after = after.as_str();
        Ok(format!(in alloc; r#"{{"handle":{after}}},"#)?)
    } else {
        Ok(String::new(alloc))
    }
}

// Answers what is asked for.
const LINE: &str =
    r#"{"handler":"static_response","body":"{http.request.method} | {http.request.uri.path} | {http.request.uri.query} | {http.request.uri}"}"#;

pub fn line_outcome(alloc: Global, row: &Tree) -> Result<Outcome, RowFault>
    requires { IsSound row.now }
{
    only(alloc, row, "line_after asked vars answered found refused")?;
    let handle = part(alloc, row, "line_after")?;
    let handle = handle.as_str();
    let line = LINE;
    let text = format!(in alloc;
        r#"{{"listen":[":80"],"routes":[{{"handle":[{{"handler":"subroute","routes":[{{"handle":{handle}}},{{"handle":[{line}]}}],"errors":{{"routes":[{{"handle":[{line}]}}]}}}}]}}]}}"#
    )?;
    outcome_by_text(alloc, row, text.as_bytes())
}

fn part(alloc: Global, row: &Tree, name: &str) -> Result<Text, RowFault>
    requires { IsSound row.now }
{
    let value = needed(alloc, row, name)?;
    Ok(print(alloc, value)?)
}

fn outcome_by_text(alloc: Global, row: &Tree, text: &[u8]) -> Result<Outcome, RowFault> {
    let tree = tree_of(alloc, text)?;
    outcome_by(alloc, row, &tree)
}

fn outcome_by(alloc: Global, row: &Tree, tree: &Tree) -> Result<Outcome, RowFault> {
    match server_of(alloc, tree) {
        Ok(server) => answered_outcome(alloc, row, server),
        Err(LoadFault::Refused(refusal)) => refused(alloc, &refusal),
        Err(LoadFault::NoMemory) => Err(RowFault::NoMemory),
    }
}

/// The server that stands there, by the name `s`.
pub fn server_of(alloc: Global, tree: &Tree) -> Result<Server, LoadFault> {
    let name = Text::from_str(alloc, "s")?;
    Server::read_named(alloc, &name, tree, &Place::top())
}

/// The words of a refusal.
pub fn refused(alloc: Global, refusal: &Refusal) -> Result<Outcome, RowFault> {
    let words = refusal.words(alloc)?;
    refuses(alloc, words.as_str())
}

fn answered_outcome(alloc: Global, row: &Tree, server: Server) -> Result<Outcome, RowFault> {
    match find(row, "asked") {
        None => says(alloc, "found", "fine"),
        Some(asked) => {
            let request = request_of(alloc, asked)?;
            if has_cycle(alloc, &server)? {
                return Err(RowFault::Malformed("a named route leads to itself"));
            }
            answer_outcome(alloc, row, server, &request)
        }
    }
}

fn has_cycle(alloc: Global, server: &Server) -> Result<bool, RowFault>
    ensures { IfOk result (λ found. found ≡ false → HasNoCycle (server.now).named) }
{
    match server.first_in_cycle(alloc)? {
        None => Ok(false),
        Some(_) => Ok(true),
    }
}

// What the server answers, and what the chain of its routes does.
fn answer_outcome(
    alloc: Global,
    row: &Tree,
    server: Server,
    request: &Request,
) -> Result<Outcome, RowFault>
    requires { HasNoCycle server.named }
{
    let answered = outcome_of_server(alloc, row, &server, request)?;
    let Server {
        routes,
        errors,
        named,
        ..
    } = server;
    let chain = Chain::compile(alloc, routes, errors, named)?;
    let laid = outcome_of_chain(alloc, row, &chain, request)?;
    both(alloc, answered, laid)
}

fn outcome_of_server(
    alloc: Global,
    row: &Tree,
    server: &Server,
    request: &Request,
) -> Result<Outcome, RowFault>
    requires { HasNoCycle (server.now).named }
{
    let answer = answer_of(alloc, row, server, request)?;
    shown(alloc, row, &answer, request)
}

fn outcome_of_chain(
    alloc: Global,
    row: &Tree,
    chain: &Chain,
    request: &Request,
) -> Result<Outcome, RowFault> {
    let answer = chain_answer_of(alloc, row, chain, request)?;
    shown(alloc, row, &answer, request)
}

fn shown(
    alloc: Global,
    row: &Tree,
    answer: &Answer<'_>,
    request: &Request,
) -> Result<Outcome, RowFault> {
    if has(row, "found") {
        shortly(alloc, answer)
    } else {
        sent(alloc, answer, request)
    }
}

// One of them, where they are the same; else no row wants what is said.
fn both(alloc: Global, answered: Outcome, laid: Outcome) -> Result<Outcome, RowFault> {
    if answered.bytes.as_slice() == laid.bytes.as_slice() {
        return Ok(answered);
    }
    let mut bytes = Octets::from_slice(alloc, b"the chain answers otherwise: ")?;
    bytes.append(laid.bytes.as_slice())?;
    Ok(Outcome {
        member: answered.member,
        bytes,
    })
}

// The answer to a request that has the variables `vars` from the first, where the row has them.
fn answer_of<'a>(
    alloc: Global,
    row: &Tree,
    server: &'a Server,
    request: &'a Request,
) -> Result<Answer<'a>, RowFault>
    requires { HasNoCycle (server.now).named }
{
    match find(row, "vars") {
        None => Ok(server_answer(alloc, server, request)?),
        Some(pairs) => {
            let variables = variables_of(alloc, pairs)?;
            let scene = Scene::new(alloc, request)?;
            Ok(answer_from(alloc, server, with_variables(scene, variables))?)
        }
    }
}

fn chain_answer_of<'a>(
    alloc: Global,
    row: &Tree,
    chain: &'a Chain,
    request: &'a Request,
) -> Result<Answer<'a>, RowFault> {
    match find(row, "vars") {
        None => Ok(chain.answer(alloc, request)?),
        Some(pairs) => {
            let variables = variables_of(alloc, pairs)?;
            let scene = Scene::new(alloc, request)?;
            Ok(chain.answer_from(alloc, with_variables(scene, variables))?)
        }
    }
}

fn sent(alloc: Global, answer: &Answer<'_>, request: &Request) -> Result<Outcome, RowFault> {
    let head = request.method() == b"HEAD".as_slice();
    let bytes = render(alloc, answer, head, request.close())?;
    Ok(Outcome {
        member: "answered",
        bytes,
    })
}

// The status and the body.
fn shortly(alloc: Global, answer: &Answer<'_>) -> Result<Outcome, RowFault> {
    let status = decimal(alloc, u64::from(answer.status))?;
    let mut bytes = Octets::from_slice(alloc, status.as_str().as_bytes())?;
    bytes.push(b' ')?;
    bytes.append(answer.body.as_slice())?;
    Ok(Outcome {
        member: "found",
        bytes,
    })
}
