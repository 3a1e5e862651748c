//! Which rails of a graph's nodes the asked output rails need.
//!
//! In alternating logic a signal has two rails: the positive rail carries its bit and the negative rail
//! the complement, so an inversion exchanges the rails and costs nothing.
#![tactic(auto)]

mod demands;
mod laws;
mod rails;
mod searches;

pub use cell_netlist::Ask;
pub use demands::Demand;
pub use laws::{demands_are_closed, examples};
pub use rails::{NodeRail, literal_rail};
pub use searches::demand;
