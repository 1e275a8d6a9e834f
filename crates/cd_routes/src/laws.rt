ghost use Rattle.std.specs.Prelude.{◌≡◌, ◌&&◌, not, ◌≤◌, ℕ, codes, length, Ok, IsTrue, List, Some, if◌then◌else◌, map, option_map};
ghost use Rattle.cd_module.specs.Bare.{bare};
ghost use Rattle.cd_module.specs.Settings.{list_of, name_of, object_of};
ghost use Rattle.cd_fill.specs.declared.scene.Scene.{Scene};
ghost use Rattle.cd_match.specs.Holds.{holds};
ghost use Rattle.cd_routes.specs.Names.{step_name};
ghost use Rattle.cd_routes.specs.Reading.{routes, route, step};
ghost use Rattle.cd_handlers.specs.Invoke.{invoked};
ghost use Rattle.cd_handlers.specs.declared.handler.Handler.{Handler as HandlerSettings};
ghost use Rattle.cd_routes.specs.Invoking.{HasNoCycle, route_named};
ghost use Rattle.cd_routes.specs.Named.{named_does, named_routes, named_to};
ghost use Rattle.cd_routes.specs.Running.{Rest, Named, nothing_left, in_place, caught, is_taken, with_group, run_route, run_routes, run_step, run_steps};
ghost use Rattle.cd_routes.specs.Server.{server, listened, names_of, names_rise};
ghost use Rattle.cd_routes.specs.declared.named.KnownName.{KnownName};
ghost use Rattle.cd_routes.specs.declared.server.Server.{Server};
ghost use Rattle.cd_tree.specs.Tree.{IsSound};
ghost use Rattle.cd_routes.specs.declared.route.Route.{out-Route};
ghost use Rattle.cd_routes.specs.declared.route.Step.{Step};
ghost use Rattle.cd_routes.specs.declared.route.Step.TheVariants as kind;
ghost use Rattle.cd_routes.specs.declared.route.Subroute.{out-Subroute};

use crate::named::NamedRoute;
use crate::route::{Route, Subroute};
use cd_handlers::Handler;
use cd_text::Text;
use cd_tree::{Path, Tree};

/// A list of routes is read route by route, and the routes of a subroute are read as all routes are.
pub fn routes_are(tree: &Tree, at: &Path)
    ensures { (known : List KnownName) → routes known tree.now at.now ≡ list_of (route known (routes known)) tree.now at.now }
{
    let _ = tree;
    let _ = at;
}

/// Ids make no difference to routes: trees that differ in ids alone are read alike, with the same routes or the same first fault.
pub fn routes_see_no_ids(tree: &Tree, other: &Tree, at: &Path)
    ensures { (known : List KnownName) → bare tree.now ≡ bare other.now → routes known tree.now at.now ≡ routes known other.now at.now }
{
    let _ = tree;
    let _ = other;
    let _ = at;
}

/// What a route does to what follows it: one that matches, and whose group is not taken, does its steps and then what follows
/// or, where it is terminal, nothing; another is passed over.
pub fn a_route_does(this: &Route)
    ensures { (named : Named) (rest : Rest) → (x : Scene) → run_route named this.now rest x
        ≡ (if holds (out-Route this.now).matching x && not (is_taken (out-Route this.now).group x)
        then run_steps named (out-Route this.now).handle (if (out-Route this.now).terminal then nothing_left else rest) (with_group (out-Route this.now).group x)
        else rest x) }
{
    let _ = this;
}

/// What a step does to what follows it: a handler its effect, an `invoke` what its named route does, and a subroute its routes,
/// whose errors catch what follows too.
pub fn a_step_does(handler: &Handler, subroute: &Subroute)
    ensures handler { (named : Named) (rest : Rest) → (x : Scene) → run_step named (kind.Handler handler.now) rest x ≡ in_place named (invoked handler.now) handler.now rest x }
    ensures subroute { (named : Named) (rest : Rest) → (x : Scene) → run_step named (kind.Subroute subroute.now) rest x
        ≡ caught (option_map (map (run_route named)) (out-Subroute subroute.now).errors) rest
        (run_routes named (out-Subroute subroute.now).routes rest x) }
{
    let _ = handler;
    let _ = subroute;
}

/// Where no named route leads to itself, an `invoke` does to what follows what its named route does; and to take named routes
/// deeper in one another than there are changes nothing.
pub fn an_invoke_does_its_route(named: &[NamedRoute])
    ensures does { HasNoCycle named.now → (handler : HandlerSettings) (rest : Rest) (x : Scene) → (name : List ℕ) → invoked handler ≡ Some name
        → run_step (named_routes named.now) (kind.Handler handler) rest x ≡ named_does (route_named named.now name) (named_routes named.now) rest x }
    ensures enough { HasNoCycle named.now → (depth : ℕ) (place : ℕ) → length named.now ≤ depth → named_to named.now depth place ≡ named_to named.now (length named.now) place }
{
    let _ = named;
}

/// The name of a handler or a subroute that was read is the text of its `handler`.
pub fn steps_have_their_names(tree: &Tree, at: &Path)
    ensures { (known : List KnownName) (read : Step) → step known (routes known) tree.now at.now ≡ Ok read → name_of (codes "handler") tree.now at.now ≡ Ok (step_name read) }
{
    let _ = tree;
    let _ = at;
}

/// A server that was read has the name that it was read under, and listens on one address at least.
pub fn servers_are_named_and_listen(name: &Text, tree: &Tree, at: &Path)
    ensures named { (read : Server) → server name.now tree.now at.now ≡ Ok read → read.name ≡ name.now }
    ensures listens { (read : Server) → server name.now tree.now at.now ≡ Ok read → 1 ≤ length (listened read.listen) }
{
    let _ = name;
    let _ = tree;
    let _ = at;
}

/// Ids make no difference to a server: trees that differ in ids alone are read alike, with the same server or the same first
/// fault.
pub fn servers_see_no_ids(name: &Text, tree: &Tree, other: &Tree, at: &Path)
    ensures { bare tree.now ≡ bare other.now → server name.now tree.now at.now ≡ server name.now other.now at.now }
{
    let _ = name;
    let _ = tree;
    let _ = other;
    let _ = at;
}

/// The names of servers that were read of an object rise, as the keys of each tree that was read do.
pub fn names_of_servers_rise(tree: &Tree, at: &Path)
    ensures { (read : List Server) → IsSound tree.now → object_of server tree.now at.now ≡ Ok read → IsTrue (names_rise (names_of read)) }
{
    let _ = tree;
    let _ = at;
}
