//! The number that configurations and their plans share.
ghost use Rattle.std.specs.Prelude.{◌≡◌};
ghost use Rattle.cd_module.specs.declared.limits.TheConstants as configured;
ghost use Rattle.cd_legal.specs.declared.limits.TheConstants as planned;

/// A configuration has at most as many modules as a plan may have.
pub fn plans_have_as_many_modules()
    ensures { configured.MAX_MODULES ≡ planned.MAX_MODULES }
{}
