use cd_module_set::{Loaded, ModuleSet};
use cd_wire::Answer;

/// What a request comes to. A decision is taken apart by `match`, since what is loaded is handed on.
pub enum Decision<M: ModuleSet> {
    /// This answer, and nothing changes.
    Reply(Answer<'static>),
    /// This configuration takes the place of the current one.
    Replace(Loaded<M>),
    /// The server halts.
    Halt,
}
