//! The names of named routes, of which one is found by halves.
ghost use Rattle.std.specs.Prelude.{◌≡◌, ◌<◌, [], length, get_or, IsTrue};
ghost use Rattle.cd_routes.specs.Invoking.{place_of};
ghost use Rattle.cd_routes.specs.NameList.{Rise};

use cd_text::{List, Text};
use std::cmp::Ordering;
use std::marker::Model;

/// The names of named routes, which contracts see as their list. Where they rise, as those of an object do, a name is found
/// by halves.
#[derive(Debug, Drop)]
pub struct NameList {
    names: List<Text>,
    // whether each is below the next
    rise: bool,
}

impl Model for NameList {
    ghost use Rattle.std.specs.Prelude.{IsTrue};
    ghost use Rattle.cd_routes.specs.Invoking.{Names};
    ghost use Rattle.cd_routes.specs.NameList.{Rise};

    ghost Value = { Names };

    ghost view = { λ list. list.names };

    ghost invariant = { λ list. IsTrue list.rise → Rise list.names };
}

// Whether each is below the next, by their bytes.
fn each_is_below_the_next(names: &[Text]) -> bool
    ensures { IsTrue result → Rise names.now }
{
    names.is_sorted_by(|one, other| one.cmp(other) == Ordering::Less)
}

// The place of a name among names; their number, where it is none of them.
fn place_among(names: &[Text], name: &Text) -> usize
    ensures { result ≡ place_of names.now name.now }
{
    for (place, one) in names.iter().enumerate() {
        if name.equals(one.as_str()) {
            return place;
        }
    }
    names.len()
}

// The same by halves, of names that rise.
fn place_by_halves(names: &[Text], name: &Text) -> usize
    requires { Rise names.now }
    ensures { result ≡ place_of names.now name.now }
{
    match names.binary_search(name) {
        Ok(place) => place,
        Err(_) => names.len(),
    }
}

impl NameList {
    /// These names.
    pub fn new(names: List<Text>) -> NameList
        ensures { result ≡ names }
    {
        let rise = each_is_below_the_next(names.as_slice());
        NameList { names, rise }
    }

    /// How many there are.
    pub fn len(&self) -> usize
        ensures { result ≡ length self.now }
    {
        self.names.len()
    }

    /// The place of a name among them; their number, where it is none of them. It takes no memory.
    pub fn place_of(&self, name: &Text) -> usize
        ensures { result ≡ place_of self.now name.now }
    {
        if self.rise {
            return place_by_halves(self.names.as_slice(), name);
        }
        place_among(self.names.as_slice(), name)
    }
}
