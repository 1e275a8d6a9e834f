ghost use Rattle.std.specs.Prelude.{◌≡◌, Ok};
ghost use Rattle.cd_tree.specs.Endings.{last_byte};
ghost use Rattle.cd_tree.specs.Reading.{tree_of};
ghost use Rattle.cd_tree.specs.declared.tree.Tree.{Tree};

/// The text of a tree has a last byte, and that is not 0. A call does nothing.
pub fn no_tree_ends_in_zero(text: &[u8])
    ensures { (tree : Tree) → tree_of text.now ≡ Ok tree → last_byte 0 text.now ≡ 0 → ⊥ }
{
    let _ = text;
}
