ghost use Rattle.std.specs.Prelude.{◌≡◌};
ghost use Rattle.cd_legal.specs.declared.entry.Change.TheVariants as change;
ghost use Rattle.cd_life.specs.Origins.{change_of};

use cd_wire::Request;
use std::snapshot::Snapshot;

/// Where a configuration that is published comes from. Of a request it holds what contracts need alone: it has no bytes of it.
#[derive(Drop)]
pub enum Origin {
    /// The first one comes by no request.
    First,
    /// It is what this request makes of the configuration before it.
    Request(Snapshot<Request>),
}

impl Origin {
    /// From this request.
    pub fn of(request: &Request) -> Origin
        ensures { change_of result ≡ change.Request request.now }
    {
        Origin::Request(Snapshot::of(request))
    }
}
