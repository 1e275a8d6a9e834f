//! Which of some numbered things lead to themselves, where each names others: as named routes that invoke others do.
//!
//! A thing leads to what it names, and to all that this leads to (specs/Leads.antt; the law `ways_lead` says it by ways).
//! `sorted_after_named` gives an order in which each stands after those that it names, or a number that leads to itself; where
//! there is an order, none does (`orders_have_no_cycle`). `least_in_cycle` gives the least that leads to itself, exactly. Both
//! take as many steps as there are names, a few times over: of the second that rests on the classes (classing.rt), of which
//! nothing is promised, and which are looked at before they are used.
//!
//! `depth_is_enough` is the law by which a definition may take things in one another to a depth: where none leads to itself, more
//! depth than there are things changes no value, and each value is one level over the others (specs/Depth.antt, for any values).
//!
//! `totals` gives what each counts with those that it names, and with what these name, where each counts something by itself
//! (specs/Totals.antt). No thing is counted twice for that, however often it is named.
#![tactic(auto)]

mod classing;
mod counting;
mod laws;
mod least;
mod seeking;
mod sorting;
mod walk;

pub use counting::{count_of, sum_of, totals};
pub use laws::{depth_is_enough, orders_have_no_cycle, other_names_lead_alike, ways_lead};
pub use least::least_in_cycle;
pub use seeking::leads_to;
pub use sorting::{Sorted, sorted_after_named};
