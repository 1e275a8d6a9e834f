//! The names of what stands in a route's `handle`.
ghost use Rattle.std.specs.Prelude.{◌≡◌};
ghost use Rattle.cd_routes.specs.Names.{subroute_name, step_name};

use crate::route::Step;

/// The text of `handler` that names a subroute, which is the last label of the module's id: `subroute` of
/// `http.handlers.subroute`.
pub(crate) fn subroute_name() -> &'static str
    ensures { result.now ≡ subroute_name }
{
    "subroute"
}

impl Step {
    /// The name of its module without the namespace `http.handlers`. It is the text of the `handler` that it was read with, as
    /// the law `steps_have_their_names` says.
    pub fn name(&self) -> &'static str
        ensures { result.now ≡ step_name self.now }
    {
        match self {
            Step::Handler(handler) => handler.name(),
            Step::Subroute(_) => subroute_name(),
        }
    }
}
