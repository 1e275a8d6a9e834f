ghost use Rattle.std.specs.Prelude.{◌≡◌, None};

use cd_outside::{Source, Taken};
use cd_text::Octets;
use cd_tree::{JsonPlace, place_of_json_fault};
use std::alloc::Global;

/// A source that says where the bytes that it gave stop being JSON. It keeps them until their end comes, and looks then.
#[derive(Drop)]
pub struct Placed<S> {
    alloc: Global,
    pub source: S,
    // The bytes so far, or `None` where none are looked at.
    given: Option<Octets>,
    /// Where they stop being JSON, once their end has come.
    pub place: Option<JsonPlace>,
}

impl<S: Source> Placed<S> {
    /// This source. Where it is not to be looked at, no place is found.
    pub fn new(alloc: Global, source: S, looks: bool) -> Placed<S>
        ensures source { result.source ≡ source }
        ensures place { result.place ≡ None }
    {
        let given = if looks {
            Some(Octets::new(alloc))
        } else {
            None
        };
        Placed {
            alloc,
            source,
            given,
            place: None,
        }
    }
}

// Adds a piece. Where memory runs out nothing is looked at any more.
fn with_piece(given: Option<Octets>, piece: &[u8]) -> Option<Octets> {
    let mut given = given?;
    given.append(piece).ok()?;
    Some(given)
}

// Where memory runs out no place is found.
fn place_in(alloc: Global, given: &Octets) -> Option<JsonPlace> {
    place_of_json_fault(alloc, given.as_slice()).ok()?
}

impl<S: Source> Source for Placed<S> {
    ghost faults = { λ placed. S.faults placed.source };

    ghost left = { λ placed. S.left placed.source };

    fn read(&mut self, into: &mut [u8]) -> Taken {
        let taken = self.source.read(into);
        match taken {
            Taken::Bytes(count) => {
                self.given = with_piece(self.given.take(), &into[..count]);
            }
            Taken::End => {
                if let Some(given) = self.given.take() {
                    self.place = place_in(self.alloc, &given);
                }
            }
            Taken::Failed => {}
        }
        taken
    }
}
