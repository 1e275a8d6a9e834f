ghost use Rattle.std.specs.Prelude.{◌≡◌, ℕ, ◌==◌, List, [], Ok, Some, true};
ghost use Rattle.std.specs.List.{list_any};
ghost use Rattle.cd_wire.specs.declared.request.Request.{Request};
ghost use Rattle.cd_legal.specs.declared.plan.Plan.{Plan};
ghost use Rattle.cd_module_set.specs.Acts.{answer_at};
ghost use Rattle.cd_standard.specs.Acting.{acts_of_tree, plan_of_tree};
ghost use Rattle.cd_caddyfile.specs.FileSites.{sites};
ghost use Rattle.cd_caddyfile.specs.Shape.{shape};
ghost use Rattle.cd_site.specs.Answering.{site_answer};

/// Where the tree of a file is a configuration without a fault, an app answers at each port that a site has, and it answers as
/// the sites of the file do.
pub fn caddyfiles_mean_their_sites()
    ensures { (bytes : List ℕ) (plan : Plan) (port : ℕ) (q : Request)
        → plan_of_tree (shape (sites bytes)) ≡ Ok plan
        → list_any (λ site. site.address.port == port) (sites bytes) ≡ true
        → answer_at (acts_of_tree (shape (sites bytes))) (record { host = []; port = port }) q ≡ Some (site_answer (sites bytes) port q) }
{}
