//! From a well founded machine to its and-inverter graph.
#![tactic(auto)]

mod building;
mod built;
mod equations;
mod laws;
mod literals;
mod orders;

pub use building::build;
pub use built::Built;
pub use laws::{examples, graphs_run_alike};
