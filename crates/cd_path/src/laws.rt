//! What the definitions mean beyond what a call says, each as a call that does nothing.
ghost use Rattle.std.specs.Prelude.{◌≡◌, ◌≢◌, ℕ, List, [], ◌∷◌, ◌++◌, Option, Ok, Some, None, IsOk};
ghost use Rattle.cd_text.specs.Steps.{◌▷◌};
ghost use Rattle.cd_tree.specs.Path.{◌▸◌};
ghost use Rattle.cd_tree.specs.declared.path.Path.{Path};
ghost use Rattle.cd_tree.specs.declared.tree.Member.{Member};
ghost use Rattle.cd_tree.specs.declared.tree.Tree.{Tree, Null, Items, Object};
ghost use Rattle.cd_path.specs.Editing.{edit};
ghost use Rattle.cd_path.specs.Looking.{look, ellipsis};
ghost use Rattle.cd_path.specs.Puts.{put, IsNotTooLarge};
ghost use Rattle.cd_path.specs.declared.verb.Verb.TheVariants.{Post, Put, Patch, Delete};

/// What was put or patched at a path is found there, also at the end of a list and at the empty path.
pub fn bodies_are_found()
    ensures put { (tree body made : Tree) (path : Path)
        → edit tree Put path (Some body) ≡ Ok made
        → look made path ≡ Ok (Some body) }
    ensures patched { (tree body made : Tree) (path : Path)
        → edit tree Patch path (Some body) ≡ Ok made
        → look made path ≡ Ok (Some body) }
{}

/// A POST at a list leaves the body after its elements, and anywhere else the body alone. At the end `...` of a list it
/// leaves the elements of the body after those of the list.
pub fn posts_append_or_set()
    ensures appended { (tree body made : Tree) (path : Path) (items : List Tree)
        → edit tree Post path (Some body) ≡ Ok made
        → look tree path ≡ Ok (Some (Items items))
        → look made path ≡ Ok (Some (Items (items ++ body ∷ []))) }
    ensures set { (tree body made : Tree) (path : Path) (found : Option Tree)
        → edit tree Post path (Some body) ≡ Ok made
        → look tree path ≡ Ok found
        → ((items : List Tree) → found ≢ Some (Items items))
        → look made path ≡ Ok (Some body) }
    ensures all_appended { (tree made : Tree) (path : Path) (items more : List Tree)
        → edit tree Post (path ▸ ellipsis) (Some (Items more)) ≡ Ok made
        → look tree path ≡ Ok (Some (Items items))
        → look made path ≡ Ok (Some (Items (items ++ more))) }
{}

/// A key of an object is absent after its DELETE, and the whole tree is null after that of the empty path.
pub fn deleted_keys_are_absent()
    ensures key { (tree made : Tree) (path : Path) (key : List ℕ) (body : Option Tree) (members : List Member)
        → edit tree Delete (path ▸ key) body ≡ Ok made
        → look tree path ≡ Ok (Some (Object members))
        → look made (path ▸ key) ≡ Ok None }
    ensures whole { (tree made : Tree) (body : Option Tree)
        → edit tree Delete (record { parts = [] }) body ≡ Ok made
        → made ≡ Null }
{}

/// A PUT at an absent key of an object is refused for the size of its result alone.
pub fn absent_keys_take_puts()
    ensures { (tree body : Tree) (path : Path) (key : List ℕ)
        → look tree (path ▸ key) ≡ Ok None
        → IsNotTooLarge (put (path ▸ key) body tree)
        → IsOk (put (path ▸ key) body tree) }
{}

/// Two PUTs at different absent keys of one object give the same in either order, where neither alone is refused for the
/// size of its result.
pub fn puts_commute()
    ensures { (tree first second : Tree) (path : Path) (one two : List ℕ)
        → one ≢ two
        → look tree (path ▸ one) ≡ Ok None
        → look tree (path ▸ two) ≡ Ok None
        → IsNotTooLarge (put (path ▸ one) first tree)
        → IsNotTooLarge (put (path ▸ two) second tree)
        → (put (path ▸ one) first tree ▷ put (path ▸ two) second)
        ≡ (put (path ▸ two) second tree ▷ put (path ▸ one) first) }
{}
