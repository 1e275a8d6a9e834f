use cd_index::Table;
use cd_text::{List, NoMemory};
use std::alloc::Global;

/// The routes of a list by the paths that they are for. Their positions are counted from the end of the list: at 0 is what follows
/// it, at 1 its last route.
#[derive(Debug, Drop)]
pub struct Index {
    /// The places, by positions.
    pub numbers: List<usize>,
    /// The positions by the paths of routes.
    pub table: Table,
}

/// Where a route is in an index.
#[derive(Debug, Clone, Copy, Drop)]
pub struct Entry {
    /// The number of the index.
    pub index: usize,
    pub position: usize,
}

impl Index {
    ghost use Rattle.std.specs.Prelude.{◌≡◌, ◌≤◌, ℕ, List, [], ◌∷◌, length, get_or, IfOk};
    ghost use Rattle.cd_fill.specs.declared.scene.Scene.{Scene as SceneOf};
    ghost use Rattle.cd_routes.specs.Running.{Rest};
    ghost use Rattle.cd_chain.specs.declared.place.Place.{Place as PlaceOf};
    ghost use Rattle.cd_chain.specs.Places.{at};
    ghost use Rattle.cd_chain.specs.Steps.{steps_at};
    ghost use Rattle.cd_chain.specs.Indexes.{number_at, IsSound};

    /// The index of a list of so many routes before any is laid out: it has what follows the list alone.
    pub(crate) fn new(alloc: Global, count: usize, rest: usize) -> Result<Index, NoMemory>
        ensures numbers { IfOk result (λ index. index.numbers ≡ rest ∷ []) }
        ensures top { IfOk result (λ index. index.table.top ≡ 0) }
    {
        let table = Table::new(alloc, count.saturating_mul(4))?;
        let mut numbers = List::new(alloc);
        numbers.push(rest)?;
        Ok(Index { numbers, table })
    }

    /// An index of no routes.
    pub(crate) fn none(alloc: Global) -> Result<Index, NoMemory>
        ensures { IfOk result (λ index. index.numbers ≡ []) }
    {
        let table = Table::new(alloc, 1)?;
        Ok(Index {
            numbers: List::new(alloc),
            table,
        })
    }

    fn number(&self, position: usize) -> usize
        ensures { result ≡ number_at self.now position }
    {
        match self.numbers.get(position) {
            Some(number) => *number,
            None => 0,
        }
    }

    /// Where a request with this path goes on from the place of a position. No route that it may match is passed over.
    #[tactic(auto, using(crate::proofs::Indexes::skips, crate::proofs::Indexes::falls))]
    pub(crate) fn skip(&self, position: usize, n: usize, path: &[u8]) -> usize
        ensures meaning { (places : List PlaceOf) (back : Rest) (x : SceneOf) → IsSound places self.now → path.now ≡ x.current.path → at places result back x ≡ at places n back x }
        ensures less { (places : List PlaceOf) (back : ℕ) → IsSound places self.now → steps_at places result back ≤ steps_at places n back }
    {
        if position >= self.numbers.len() || self.number(position) != n {
            return n;
        }
        let found = self.table.candidate(path, position);
        self.number(found)
    }
}
