//! Names with their values, in the order in which the names come first.
//!
//! The place of each name is kept in a map, so that a value more takes as long among many names as the logarithm of their number.
ghost use Rattle.std.specs.Prelude.{◌≡◌, ℕ, List, [], ◌∷◌, ◌++◌, OnOk, OnErr, Some, None};
ghost use Rattle.cd_caddyfile.specs.Matchers.{with_value};
ghost use Rattle.cd_parts.specs.Places.{place_of, place_in};

use cd_caddyfile::Wanted;
use cd_text::{List, NoMemory, Octets};
use std::alloc::Global;
use std::collections::BTreeMap;
use std::marker::Model;

/// Names with their values, which contracts see as the list of them.
#[derive(Drop)]
pub struct Names<'a> {
    all: Vec<Wanted>,
    places: BTreeMap<&'a [u8], usize>,
}

impl<'a> Model for Names<'a> {
    ghost use Rattle.std.specs.Prelude.{◌≡◌, ℕ, List};
    ghost use Rattle.cd_caddyfile.specs.Sites.{Wanted};
    ghost use Rattle.cd_parts.specs.Places.{place_of, place_in};

    ghost Value = { List Wanted };

    ghost view = { λ n. n.all.items };

    ghost invariant = { λ n. (q : List ℕ) → place_in n.places q ≡ place_of q n.all.items };
}

impl<'a> Names<'a> {
    /// No names.
    pub fn new(alloc: Global) -> Names<'a>
        ensures { result ≡ [] }
    {
        Names {
            all: Vec::new(alloc),
            places: BTreeMap::new(alloc),
        }
    }

    /// The list of the names with their values.
    pub fn into_list(self) -> List<Wanted>
        ensures { result ≡ self.entry }
    {
        let Names { all, places } = self;
        drop(places);
        List::from_vec(all)
    }

    /// Adds a value for a name.
    pub fn add(&mut self, alloc: Global, name: &'a [u8], value: Octets) -> Result<(), NoMemory>
        ensures { OnOk result (self.new ≡ with_value name.now value self.old) }
    {
        match self.places.get(name).copied() {
            Some(at) => add_value(&mut self.all, name, at, value),
            None => add_name(alloc, &mut self.all, &mut self.places, name, value),
        }
    }
}

// A value more for the name at this place.
#[tactic(auto, using(crate::proofs::PlaceSteps::place_within, crate::proofs::PlaceSteps::value_put, crate::proofs::PlaceSteps::places_kept))]
fn add_value(all: &mut Vec<Wanted>, name: &[u8], at: usize, value: Octets) -> Result<(), NoMemory>
    requires { place_of name.now all.old.items ≡ Some at }
    ensures ok { OnOk result (all.new.items ≡ with_value name.now value all.old.items) }
    ensures places { (q : List ℕ) → place_of q all.new.items ≡ place_of q all.old.items }
{
    let wanted = &mut all[at];
    wanted.values.push(value)
}

// A name that is not there yet, with its first value and its place. Without memory for the place, the name is taken off again.
#[tactic(auto, using(crate::proofs::PlaceSteps::name_put))]
fn add_name<'a>(
    alloc: Global,
    all: &mut Vec<Wanted>,
    places: &mut BTreeMap<&'a [u8], usize>,
    name: &'a [u8],
    value: Octets,
) -> Result<(), NoMemory>
    requires absent { place_of name.now all.old.items ≡ None }
    requires places { (q : List ℕ) → place_in places.old q ≡ place_of q all.old.items }
    ensures ok { OnOk result (all.new.items ≡ with_value name.now value all.old.items) }
    ensures places { (q : List ℕ) → place_in places.new q ≡ place_of q all.new.items }
{
    let at = all.len();
    push_name(alloc, all, name, value)?;
    match places.insert(name, at) {
        Ok(_) => Ok(()),
        Err(_) => {
            drop(all.pop());
            Err(NoMemory)
        }
    }
}

fn push_name(
    alloc: Global,
    all: &mut Vec<Wanted>,
    name: &[u8],
    value: Octets,
) -> Result<(), NoMemory>
    ensures ok { OnOk result (all.new.items ≡ all.old.items ++ record { name = name.now; values = value ∷ [] } ∷ []) }
    ensures err { OnErr result (all.new.items ≡ all.old.items) }
{
    let name = Octets::from_slice(alloc, name)?;
    let mut values = List::new(alloc);
    values.push(value)?;
    all.push(Wanted { name, values })?;
    Ok(())
}
