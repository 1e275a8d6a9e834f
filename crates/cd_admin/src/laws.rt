//! What the definitions mean, each law as a call that does nothing.
ghost use Rattle.std.specs.Prelude.{◌≡◌, ℕ, List, ◌∷◌, codes, true, false, Some, Ok, Err, Result};
ghost use Rattle.std.specs.Result.{IsOk};
ghost use Rattle.cd_tree.specs.declared.tree.Tree.{Tree};
ghost use Rattle.cd_wire.specs.Fields.{values};
ghost use Rattle.cd_wire.specs.declared.request.Request.{Request};
ghost use Rattle.cd_module.specs.declared.fault.LoadFault.{LoadFault};
ghost use Rattle.cd_legal.specs.declared.plan.Plan.{Plan};
ghost use Rattle.cd_tags.specs.IfMatch.{IsTagOf};
ghost use Rattle.cd_tags.specs.declared.if_match.Tag.{Tag};
ghost use Rattle.cd_admin.specs.Admin.{admin_of};
ghost use Rattle.cd_admin.specs.Answers.{refusal};
ghost use Rattle.cd_admin.specs.Asking.{asked};
ghost use Rattle.cd_admin.specs.Deciding.{tag_of_value, decided, reply, halt, new_tree, change_of};
ghost use Rattle.cd_admin.specs.Origins.{expected, is_among, without_scheme};
ghost use Rattle.cd_admin.specs.declared.denial.Denial.TheVariants.{OtherHost, OtherOrigin};
ghost use Rattle.cd_admin.specs.declared.ending.Ending.TheVariants.{Halt};

use crate::administered::Administered;

/// The tag of a value of If-Match is the one that the value has the form of.
pub fn tags_have_their_form()
    ensures found { (value : List ℕ) (tag : Tag) → IsTagOf value tag → tag_of_value value ≡ Some tag }
    ensures formed { (value : List ℕ) (tag : Tag) → tag_of_value value ≡ Some tag → IsTagOf value tag }
{}

/// Where a configuration enforces origins, a request by another host than it expects is refused, whatever it asks: it changes and
/// halts nothing. So is one from another origin, as of a page of another site.
pub fn foreign_requests_are_refused()
    ensures host { (verdict : Tree → Result Plan LoadFault) (tree : Tree) (request : Request)
        → (admin_of tree).enforce_origin ≡ true
        → is_among (expected (admin_of tree)) request.host ≡ false
        → decided verdict tree request ≡ reply (refusal OtherHost) }
    ensures origin { (verdict : Tree → Result Plan LoadFault) (tree : Tree) (request : Request) (origin : List ℕ) (others : List (List ℕ))
        → (admin_of tree).enforce_origin ≡ true
        → is_among (expected (admin_of tree)) request.host ≡ true
        → values (codes "origin") request.fields ≡ origin ∷ others
        → is_among (expected (admin_of tree)) (without_scheme origin) ≡ false
        → decided verdict tree request ≡ reply (refusal OtherOrigin) }
{}

/// A request makes no tree with a fault.
pub fn changes_are_fine()
    ensures { (verdict : Tree → Result Plan LoadFault) (tree new : Tree) (request : Request)
        → change_of verdict tree request ≡ Some new
        → IsOk (verdict new) }
{}

/// A request asks an administered set for the tree that it is decided to make.
#[tactic(auto, unfolding(crate::specs::Deciding::change_of))]
pub fn changes_are_decided<M: Administered>()
    ensures { (tree : Tree) (request : Request) → M.change tree request ≡ new_tree (decided M.plan tree request) }
{}

/// The server halts only where a request asks for the halt, which is a POST to `/stop`: no test halts it for want of memory.
pub fn halts_are_asked_for<M: Administered>()
    ensures asked { (tree : Tree) (request : Request) → decided M.plan tree request ≡ halt → asked request ≡ Err Halt }
    ensures stop { (request : Request) → asked request ≡ Err Halt → (request.path ≡ codes "/stop") × (request.method ≡ codes "POST") }
{}
