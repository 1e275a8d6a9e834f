ghost use Rattle.std.specs.Prelude.{◌≡◌, ℕ, List, Option, Some, Result, length};
ghost use Rattle.cd_tree.specs.declared.tree.Tree.{Tree};
ghost use Rattle.cd_caddyfile.specs.Adapting.{adapted};
ghost use Rattle.cd_caddyfile.specs.declared.fault.CaddyfileFault.{CaddyfileFault};
ghost use Rattle.cd_legal.specs.declared.plan.Plan.{Plan};
ghost use Rattle.cd_module.specs.declared.fault.LoadFault.{LoadFault};
ghost use Rattle.cd_storm.specs.declared.limits.TheConstants.{LANES};
ghost use Rattle.cd_serve.specs.Meanings.{Meaning};
ghost use Rattle.cd_host.specs.Runs.{Observed};
ghost use Rattle.cd_program.specs.Adapting.{ComesTo};
ghost use Rattle.cd_program.specs.Configuration.{configured};
ghost use Rattle.cd_program.specs.Storm.{IsStorm};
ghost use Rattle.cd_program.specs.Top.{Loads};
ghost use Rattle.cd_program.specs.declared.config.TheConstants.{CONFIG_READ_BYTES};
ghost use Rattle.cd_program.specs.declared.refusal.Refusal.{Refusal};

/// The numbers of the limits.
pub fn limits_in_numbers()
    ensures read { CONFIG_READ_BYTES ≡ 16384 }
{}

/// The law that a source that tells its bytes loads what all of them come to: so they are a configuration that may run, or
/// they are refused, and never both.
pub fn all_bytes_are_loaded()
    ensures { (plan : Tree → Result Plan LoadFault) (bytes : List ℕ) (left : Option (List ℕ)) (found : Result Tree Refusal)
        → Loads plan (Some bytes) left found → configured plan bytes ≡ found }
{}

/// The law that a source that tells its bytes is adapted as all of them are, however many of them were read.
pub fn all_bytes_are_adapted()
    ensures { (bytes : List ℕ) (left : Option (List ℕ)) (found : Result Tree CaddyfileFault)
        → ComesTo (Some bytes) left found → adapted bytes ≡ found }
{}

/// A storm tells of each of its lanes: none is lost.
pub fn a_storm_tells_of_each_lane()
    ensures { (m : Meaning) (number : ℕ) (run : Observed) → IsStorm m number run → length run.lanes ≡ LANES }
{}
