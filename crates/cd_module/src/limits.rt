//! What there may be only so much of in a configuration.
ghost use Rattle.std.specs.Prelude.{◌≡◌};
ghost use Rattle.cd_text.specs.Gives.{Gives};
ghost use Rattle.cd_module.specs.Faults.{within};
ghost use Rattle.cd_module.specs.Limits.{most, named};

use crate::fault::LoadFault;
use std::alloc::Global;

/// How many modules a configuration may have.
pub const MAX_MODULES: usize = 65_536;

/// How many addresses all apps together may listen on.
pub const MAX_ADDRESSES: usize = 1_024;

/// How many servers there may be.
pub const MAX_SERVERS: usize = 256;

/// How many subroutes with error routes a server may have.
pub const MAX_ERROR_SUBROUTES: usize = 8;

/// How much the routes and the error routes of a server may weigh together: one for each route and each handler, those of
/// subroutes too, and at each `invoke` what its named route weighs.
pub const MAX_EXPANDED_ROUTES: usize = 65_536;

/// What there may be only so much of.
#[derive(Clone, Copy, Debug, PartialEq, Eq)]
pub enum Limit {
    Modules,
    Addresses,
    Servers,
    ErrorSubroutes,
    ExpandedRoutes,
}

impl Limit {
    /// How much of it there may be.
    pub fn most(self) -> usize
        ensures { result ≡ most self }
    {
        match self {
            Limit::Modules => MAX_MODULES,
            Limit::Addresses => MAX_ADDRESSES,
            Limit::Servers => MAX_SERVERS,
            Limit::ErrorSubroutes => MAX_ERROR_SUBROUTES,
            Limit::ExpandedRoutes => MAX_EXPANDED_ROUTES,
        }
    }

    /// The words for it in a refusal.
    pub fn name(self) -> &'static str
        ensures { result.now ≡ named self }
    {
        match self {
            Limit::Modules => "modules",
            Limit::Addresses => "addresses",
            Limit::Servers => "servers",
            Limit::ErrorSubroutes => "error subroutes",
            Limit::ExpandedRoutes => "expanded routes",
        }
    }

    /// LimitReached where there is more of it than may be.
    pub fn allows(self, alloc: Global, count: usize) -> Result<(), LoadFault>
        ensures { Gives LoadFault.NoMemory result (within self count) }
    {
        if count <= self.most() {
            Ok(())
        } else {
            Err(LoadFault::limit_reached(alloc, self))
        }
    }
}
