ghost use Rattle.std.specs.Prelude.{◌≤◌, length};
ghost use Rattle.cd_legal.specs.declared.limits.TheConstants.{MAX_PASSES};

/// The open tickets.
pub struct Tickets {
    // by caller: the serial of its open ticket
    pub(crate) by_caller: Vec<Option<u32>>,
    ghost few: { length by_caller.items ≤ MAX_PASSES },
}
