//! How a call of the compiler ended: its outcome with the fault behind it, its exit code, and its line, which is written without
//! memory.
#![tactic(auto)]

mod net_notes;
mod notes;
mod outcomes;
mod simulation_notes;

pub use notes::write_outcome_line;
pub use outcomes::Outcome;
