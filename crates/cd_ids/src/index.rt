ghost use Rattle.std.specs.Prelude.{◌≡◌, []};
ghost use Rattle.std.specs.Option.{option_copied};
ghost use Rattle.std.specs.Result.{result_map_both};
ghost use Rattle.cd_text.specs.Gives.{Gives};
ghost use Rattle.cd_ids.specs.Ids.{path_of, index_of};
ghost use Rattle.cd_ids.specs.Noting.{note};

use crate::fault::IdFault;
use crate::notes::Notes;
use crate::walk::walk;
use cd_text::Text;
use cd_tree::{Path, Place, SharedText, Tree};
use indexmap::IndexMap;
use std::alloc::Global;
use std::marker::Model;

/// The ids of a tree, each with the path of its object, which contracts see as their list in the order of the walk.
///
/// Ids are found by a hash with a fixed seed, which is not hardened against ids that were chosen to collide.
#[derive(Drop)]
pub struct Index {
    paths: IndexMap<String, Path>,
}

impl Model for Index {
    ghost use Rattle.std.specs.Prelude.{List, ℕ, map, string_bytes};
    ghost use Rattle.cd_tree.specs.declared.path.Path.{Path};

    ghost Value = { List (List ℕ × Path) };

    ghost view = { λ index. map (λ one. (string_bytes one.0, one.1)) index.paths.entries };
}

impl Index {
    /// The index of a tree, or the first fault that the walk meets: an id that an earlier object has, or an `@id` that is
    /// neither a text nor a whole number nor null.
    ///
    /// The walk takes an object before its members, members by rising key, and lists in order. A whole number counts as its
    /// decimal text, and null as absent. It does not walk into an `@id`.
    pub fn build(alloc: Global, tree: &Tree) -> Result<Index, IdFault>
        ensures { Gives IdFault.NoMemory result (index_of tree.now) }
    {
        let mut index = Index::new(alloc);
        let at = Place::top();
        walk(alloc, tree, &at, &mut index)?;
        Ok(index)
    }

    /// The path of the object that has this id. It takes no memory.
    pub fn find(&self, id: &Text) -> Option<&Path>
        ensures { option_copied result ≡ path_of id.now self.now }
    {
        self.paths.get(id.as_str())
    }

    fn new(alloc: Global) -> Index
        ensures { result ≡ [] }
    {
        Index {
            paths: IndexMap::new(alloc),
        }
    }

    /// Notes an id, unless it is there already.
    fn add(&mut self, alloc: Global, id: Text, at: &Place<'_>) -> Result<(), IdFault>
        ensures { Gives IdFault.NoMemory (result_map_both (λ _. self.new) (λ fault. fault) result)
            (note self.old id at.now) }
    {
        let at = at.to_path(alloc)?;
        if let Some(first) = self.find(&id) {
            return Err(IdFault::Repeated(id, first.copy(alloc)?, at));
        }
        self.paths.insert(id.into_string(), at)?;
        Ok(())
    }
}

impl Notes for Index {
    ghost use Rattle.cd_ids.specs.Noting.{note};

    ghost with = { note };

    fn note(&mut self, alloc: Global, id: SharedText, at: &Place<'_>) -> Result<(), IdFault> {
        self.add(alloc, id.copy(alloc)?, at)
    }
}
