use cd_module_set::ModuleSet;

/// A set of modules that is administered by requests. It has no call.
pub trait Administered: ModuleSet {
    ghost use Rattle.std.specs.Prelude.{◌≡◌, Ok, None};
    ghost use Rattle.std.specs.Result.{IsOk};
    ghost use Rattle.cd_ids.specs.Ids.{id_fault};
    ghost use Rattle.cd_legal.specs.declared.plan.Plan.{Plan};
    ghost use Rattle.cd_tree.specs.declared.tree.Tree.{Tree};
    ghost use Rattle.cd_wire.specs.declared.request.Request.{Request};
    ghost use Rattle.cd_admin.specs.Admin.{admin_in};
    ghost use Rattle.cd_admin.specs.Deciding.{change_of};

    /// A request asks for the tree that it is decided to make, by the set's own verdict.
    ghost changes: { (tree : Tree) (request : Request) → Self.change tree request ≡ change_of Self.plan tree request };

    /// A tree without a fault names each id once, and has no `@id` of another kind.
    ghost ids: { (tree : Tree) (plan : Plan) → Self.plan tree ≡ Ok plan → id_fault tree ≡ None };

    /// Nor has it a fault in what it says of the admin API.
    ghost admin: { (tree : Tree) (plan : Plan) → Self.plan tree ≡ Ok plan → IsOk (admin_in tree) };
}
