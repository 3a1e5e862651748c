//! The compiler as one call: words, a source and two sinks in, an outcome out.
//!
//! `run` has one clause, the table of answers of `specs/Table.antt`; what that gives stands on the functions of
//! `laws`. A command is a module in two halves, and a line in each definition of `specs/Judgements.antt`.
#![tactic(auto)]

mod checking;
mod commands;
mod compiling;
mod consuming;
mod laws;
mod netlists;
mod notes;
mod orders;
mod reporting;
mod running;
mod simulating;
mod simulation_inputs;
mod sources;
mod workloads;

pub use laws::{
    each_outcome_has_its_cause, machines_are_compiled, netlists_are_checked, netlists_are_reported,
    netlists_are_simulated, one_judgement, words_are_orders, workloads_are_done,
};
pub use orders::{Order, Schedule};
pub use run_outcomes::Outcome;
pub use running::run;
