//! The gate whose requests begin and end by one atomic step each, so that they wait for nobody.
//!
//! The word of the serial has the current serial, and counts the requests that begin under it. Each serial has a balance, off
//! which each end of a request takes one. Once a serial is superseded and its apps are stopped, it is settled: its balance then
//! has the requests that still run, and the step that leaves 0 makes it due. The rule `IsKept` of specs/Rule.antt says how these
//! words, the board and what each pass knows agree with one history; specs/Counts.antt has its parts on the words. The kinds of
//! steps stand in specs/Steps.antt, and the laws (laws.rt) say of each that it keeps the rule.
//!
//! `Gate` makes the steps on a table, whose words and slot table.rt names (plays.rt): those of requests in requests.rt, those by which
//! a serial is superseded in superseding.rt, and those of the turn in entering.rt. specs/Tables.antt says how such a table shows a
//! moment, and specs/Passes.antt what callers see. `new`, `close` (ends.rt, specs/Ends.antt) and `tell` (handing.rt) begin and end
//! passes, and let one know what another knows. What calls tell that add entries stands in specs/Growing.antt, what a pass in its turn
//! knows in specs/Knowing.antt and specs/Cores.antt, with laws in growing.rt and knowing.rt. Of all calls only `enter` waits, and only
//! `new` takes memory.
#![tactic(auto)]

mod ends;
mod entering;
mod gate;
mod growing;
mod handing;
mod knowing;
mod laws;
mod pass;
mod plays;
mod requests;
mod superseding;
mod table;
mod view;

pub use ends::NoGate;
pub use gate::Gate;
pub use growing::{calls_place_their_entries, places_follow_one_another};
pub use knowing::{
    a_pass_finds_its_draft, a_turn_knows_the_history, calm_entries_leave_the_duties,
    notes_follow_one_another,
};
pub use laws::{
    a_gate_begins_by_the_rule, a_ready_serial_stands_alone, acquiring_keeps_the_rule,
    beginning_keeps_the_rule, checking_keeps_the_rule, comparing_keeps_the_rule,
    copying_keeps_the_rule, finishing_keeps_the_rule, halting_keeps_the_rule,
    handing_over_keeps_the_rule, joining_keeps_the_rule, live_drafts_are_in_views,
    missing_keeps_the_rule, moving_the_board_keeps_the_rule, noting_keeps_the_rule,
    one_pass_has_the_turn, passes_sign_the_history, publishing_keeps_the_rule,
    releasing_keeps_the_rule, resetting_keeps_the_rule, settling_keeps_the_rule,
    splitting_keeps_the_rule, superseded_serials_have_their_fate, the_table_has_these_words,
    tickets_are_in_views,
};
pub use pass::{Pass, Turn};
pub use plays::{Names, Says};
pub use view::{Gone, Unsettled, View};
