//! Serving all lanes of a program, and what they then tell of one history.
//!
//! The program starts with its first configuration, by its own pass of number 0. Then each lane is served by a pass of its own, side
//! by side, and in the end the program halts, unless a lane has. specs/Runs.antt says what such a run promises (`Ran`): one history
//! of all passes, legal and ended in order, of which each lane tells its part; and what the program itself does in it stands in
//! specs/Program.antt and specs/Parts.antt. specs/ServedLanes.antt has what is known of each lane when all passes have come together.
//!
//! `run_host` (hosting.rt) is such a run. It calls `start_first` (starting.rt), the program's start by its own pass, of which
//! specs/Starting.antt says what it has made; `serve_all` (serving.rt), which serves all lanes side by side, each in a slot with a
//! pass of its own (slot.rt, seats.rt, specs/Seated.antt); and `end_run` (closing.rt), after which there is one history of all passes
//! (specs/Hosting.antt). specs/Gone.antt says what is known of the lanes between the latter two, whether they were served or not. The
//! functions of `laws` do nothing: their contracts say that the promise follows from what these calls tell.
#![tactic(auto)]

mod closing;
mod counts;
mod host_end;
mod hosting;
mod laws;
mod seats;
mod serving;
mod slot;
mod start_how;
mod starting;

pub use closing::end_run;
pub use counts::Counts;
pub use host_end::{HostEnd, HostHow};
pub use hosting::{run_host, say};
pub use laws::{
    a_lane_that_halts_is_not_alone, a_refused_start_has_a_failed_key, alike_changes_fit_alike,
    joined_passes_give_the_parts, lanes_come_together, lanes_without_a_fault_are_not_interrupted,
    the_first_configuration_is_that_of_the_start, the_program_signs_its_parts,
    untouched_lanes_tell_nothing,
};
pub use seats::{seat, unseat};
pub use serving::serve_all;
pub use slot::Slot;
pub use start_how::StartHow;
pub use starting::start_first;
