//! What a netlist costs: its rails, its cells of each kind, its junctions, how deep it is, and its deepest path.
#![tactic(auto)]

mod counts;
mod depths;
mod laws;
mod paths;
mod reporting;
mod reports;
mod writing;

pub use laws::{counts_add_up, depths_of_cells, one_report, paths_are_walks};
pub use reporting::report;
pub use reports::{Path, Report};
pub use writing::{write_report, write_sizes};
