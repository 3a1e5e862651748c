//! Circuits that are made and not read: the loads on which the whole way to a netlist is measured.
#![tactic(auto)]

mod counters;
mod laws;

pub use counters::counter;
pub use laws::{counters_are_founded, counters_count};
