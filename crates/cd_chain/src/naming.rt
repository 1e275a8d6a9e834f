//! Each named route is laid out once, before what invokes it.
ghost use Rattle.std.specs.Prelude.{◌≡◌, ◌≤◌, ℕ, [], ◌∷◌, List, Option, length, get_or, map, slice_set, IfOk, OnOk};
ghost use Rattle.cd_leads.specs.Orders.{IsOrder};
ghost use Rattle.cd_routes.specs.declared.named.NamedRoute.{NamedRoute as NamedOf};
ghost use Rattle.cd_routes.specs.Invoking.{HasNoCycle, leads_of, route_names};
ghost use Rattle.cd_routes.specs.Named.{named_routes};
ghost use Rattle.cd_chain.specs.declared.place.Place.TheVariants.{Return};
ghost use Rattle.cd_chain.specs.Indexes.{AreSound};
ghost use Rattle.cd_chain.specs.Laying.{entered, entered_by, named_at, AreLaid, Lays, LaysOne};

use crate::compiling::{Compiler, Plan};
use crate::place::Place;
use cd_routes::{NameList, NamedRoute, Route, leads_of};
use cd_text::{List, NoMemory, Text};
use std::alloc::Global;
use std::mem::replace;

/// The named routes of a server, laid out.
#[derive(Drop)]
pub(crate) struct Layout {
    pub plan: Plan,
    /// Their names, and where each is entered.
    pub names: NameList,
    pub entries: Vec<usize>,
}

// Named routes taken apart: their names, and the routes that are still to be laid out.
#[derive(Drop)]
struct Parts {
    names: List<Text>,
    slots: Vec<Option<Route>>,
}

fn parted(alloc: Global, named: List<NamedRoute>) -> Result<Parts, NoMemory>
    ensures names { IfOk result (λ parts. parts.names ≡ route_names named) }
    ensures slots { IfOk result (λ parts. parts.slots.items ≡ map (λ (r : NamedOf). Option.Some r.route) named) }
{
    let mut names = List::new(alloc);
    let mut slots = Vec::new(alloc);
    for one in named.into_vec() {
        let NamedRoute { name, route } = one;
        names.push(name)?;
        slots.push(Some(route))?;
    }
    Ok(Parts { names, slots })
}

// An order in which each named route stands after those that it invokes.
fn order_of(alloc: Global, named: &[NamedRoute]) -> Result<List<usize>, NoMemory>
    requires { HasNoCycle named.now }
    ensures { IfOk result (λ order. IsOrder (leads_of named.now) order) }
{
    let leads = leads_of(alloc, named)?;
    cd_routes::order_of(alloc, named, leads.as_slice())
}

// Each is entered at the first place so far.
fn first_entries(alloc: Global, count: usize) -> Result<Vec<usize>, NoMemory>
    ensures size { IfOk result (λ entries. length entries.items ≡ count) }
    ensures value { IfOk result (λ entries. (n : ℕ) → get_or entries.items n 1 ≡ 1) }
{
    let mut entries = Vec::new(alloc);
    for _step in 0..count {
        entries.push(1)?;
    }
    Ok(entries)
}

// The place to which every named route returns.
fn first_places(alloc: Global) -> Result<Vec<Place>, NoMemory>
    ensures { IfOk result (λ places. places.items ≡ Return ∷ []) }
{
    let mut places = Vec::new(alloc);
    places.push(Place::Return)?;
    Ok(places)
}

// Takes the route of a number.
fn take_route(slots: &mut [Option<Route>], n: usize) -> Option<Route>
    ensures result { result ≡ get_or slots.old n Option.None }
    ensures slots { slots.new ≡ slice_set slots.old n Option.None }
{
    if n < slots.len() {
        return replace(&mut slots[n], None);
    }
    None
}

fn put_entry(entries: &mut [usize], n: usize, begin: usize)
    ensures { entries.new ≡ slice_set entries.old n begin }
{
    if n < entries.len() {
        entries[n] = begin;
    }
}

// Lays one out, and keeps where it is entered.
#[tactic(auto, using(crate::proofs::LaidOut::lays_nothing, crate::proofs::LaidOut::lays_route))]
fn lay_one(
    alloc: Global,
    plan: &mut Plan,
    names: &NameList,
    slots: &mut [Option<Route>],
    entries: &mut [usize],
    n: usize,
) -> Result<(), NoMemory>
    requires rest { 1 ≤ length plan.old.places.items }
    requires entries { AreLaid plan.old.places.items entries.old }
    requires sound { AreSound plan.old.places.items plan.old.indexes.items }
    ensures sound { OnOk result (AreSound plan.new.places.items plan.new.indexes.items) }
    ensures laid { IfOk result (λ _. LaysOne names.now plan.old.places.items plan.new.places.items slots.old slots.new entries.old entries.new n) }
{
    match take_route(slots, n) {
        None => Ok(()),
        Some(route) => {
            let compiler = Compiler {
                alloc,
                names,
                entries,
            };
            let begin = compiler.lay_route(plan, route, 1, None)?;
            put_entry(entries, n, begin);
            Ok(())
        }
    }
}

/// Lays the named routes out, in an order in which each stands after those that it invokes. Afterwards each is entered at its
/// entry, and returns to what follows.
pub(crate) fn lay_named(
    alloc: Global,
    plan: &mut Plan,
    names: &NameList,
    slots: &mut [Option<Route>],
    entries: &mut [usize],
    order: &[usize],
) -> Result<(), NoMemory>
    requires rest { 1 ≤ length plan.old.places.items }
    requires entries { AreLaid plan.old.places.items entries.old }
    requires sound { AreSound plan.old.places.items plan.old.indexes.items }
    ensures stand { IfOk result (λ _. (named : List NamedOf) → HasNoCycle named → names.now ≡ route_names named → IsOrder (leads_of named) order.now
        → Lays named plan.old.places.items entries.old slots.old [] → (n : ℕ) → entered plan.new.places.items entries.new n ≡ named_at named n) }
    ensures laid { IfOk result (λ _. AreLaid plan.new.places.items entries.new) }
    ensures sound { IfOk result (λ _. AreSound plan.new.places.items plan.new.indexes.items) }
{
    for n in order {
        lay_one(alloc, plan, names, slots, entries, *n)?;
    }
    Ok(())
}

/// Lays out all named routes of a server.
#[tactic(auto, using(crate::proofs::LaidOut::none_laid, crate::proofs::Standing::all_named))]
pub(crate) fn lay_all(alloc: Global, named: List<NamedRoute>) -> Result<Layout, NoMemory>
    requires { HasNoCycle named }
    ensures named { IfOk result (λ made. entered_by made.plan.places.items made.entries.items made.names ≡ named_routes named) }
    ensures laid { IfOk result (λ made. AreLaid made.plan.places.items made.entries.items) }
    ensures sound { IfOk result (λ made. AreSound made.plan.places.items made.plan.indexes.items) }
{
    let order = order_of(alloc, named.as_slice())?;
    let parts = parted(alloc, named)?;
    let Parts { names, mut slots } = parts;
    let names = NameList::new(names);
    let mut entries = first_entries(alloc, names.len())?;
    let places = first_places(alloc)?;
    let indexes = Vec::new(alloc);
    let mut plan = Plan { places, indexes };
    lay_named(
        alloc,
        &mut plan,
        &names,
        slots.as_mut_slice(),
        entries.as_mut_slice(),
        order.as_slice(),
    )?;
    Ok(Layout {
        plan,
        names,
        entries,
    })
}
