//! The configuration that a storm begins with.
ghost use Rattle.std.specs.Prelude.{◌≡◌, ◌∷◌, OnOk, IfOk, map};
ghost use Rattle.std.specs.List.{range_with_len};
ghost use Rattle.cd_tree.specs.declared.tree.Tree.TheVariants as tree;
ghost use Rattle.cd_storm.specs.Draws.{drawn, route_count};
ghost use Rattle.cd_storm.specs.FirstTree.{opening_route, path_of, body_of, handler_of, route_of, routes_of, tree_with};

use crate::draws::Draws;
use crate::limits::{BODIES, LEAST_ROUTES, ROUTE_COUNTS};
use crate::trees::{double, list_of, single, text};
use cd_text::{List, NoMemory, Text};
use cd_tree::{Shared, SharedText, Tree};
use std::alloc::Global;

/// How many routes have a body that is drawn.
pub fn route_count(number: u64) -> u64
    ensures { result ≡ route_count number }
{
    LEAST_ROUTES + number % ROUTE_COUNTS
}

/// The configuration of one server with these routes.
pub fn tree_with(alloc: Global, routes: List<Tree>) -> Result<Tree, NoMemory>
    ensures { IfOk result (λ made. made ≡ tree_with routes) }
{
    let listen = list_of(alloc, text(alloc, ":8080")?)?;
    let server = double(
        alloc,
        "listen",
        listen,
        "routes",
        Tree::Items(Shared::new(alloc, routes)?),
    )?;
    let servers = single(alloc, "servers", single(alloc, "srv0", server)?)?;
    single(alloc, "apps", single(alloc, "http", servers)?)
}

/// The routes of a storm. A value is drawn for each but the first.
pub fn routes(alloc: Global, number: u64, draws: &mut Draws) -> Result<List<Tree>, NoMemory>
    requires { draws.old.last ≡ number }
    ensures routes { IfOk result (λ made. made ≡ routes_of number) }
    ensures last { OnOk result (draws.new.last ≡ drawn number (route_count number)) }
{
    let mut routes = List::new(alloc);
    routes.push(opening_route(alloc)?)?;
    for place in 0..route_count(number) {
        let value = draws.draw();
        routes.push(route(alloc, place, value)?)?;
    }
    Ok(routes)
}

fn opening_route(alloc: Global) -> Result<Tree, NoMemory>
    ensures { IfOk result (λ made. made ≡ opening_route) }
{
    let handler = single(alloc, "handler", text(alloc, "vars")?)?;
    single(alloc, "handle", list_of(alloc, handler)?)
}

#[tactic(auto, unfolding(crate::specs::FirstTree::route_of))]
fn route(alloc: Global, place: u64, value: u64) -> Result<Tree, NoMemory>
    ensures { IfOk result (λ made. made ≡ route_of place value) }
{
    let handlers = list_of(alloc, handler(alloc, value)?)?;
    let paths = list_of(alloc, path(alloc, place)?)?;
    let sets = list_of(alloc, single(alloc, "path", paths)?)?;
    double(alloc, "handle", handlers, "match", sets)
}

fn path(alloc: Global, place: u64) -> Result<Tree, NoMemory>
    ensures { IfOk result (λ made. made ≡ tree.Text (path_of place)) }
{
    let path = Text::from_string(format!(in alloc; "/p{place}")?);
    Ok(Tree::Text(SharedText::new(alloc, path)?))
}

fn handler(alloc: Global, value: u64) -> Result<Tree, NoMemory>
    ensures { IfOk result (λ made. made ≡ handler_of value) }
{
    let body = body(alloc, value)?;
    let name = text(alloc, "static_response")?;
    double(alloc, "body", body, "handler", name)
}

fn body(alloc: Global, value: u64) -> Result<Tree, NoMemory>
    ensures { IfOk result (λ made. made ≡ tree.Text (body_of value)) }
{
    let choice = value % BODIES;
    let body = Text::from_string(format!(in alloc; "b{choice}")?);
    Ok(Tree::Text(SharedText::new(alloc, body)?))
}
