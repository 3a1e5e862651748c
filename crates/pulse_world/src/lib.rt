//! The world of pulses: what is true of a sound netlist under every order of deliveries.
//!
//! The words are those of `cell_netlist`: its `World` and `Runs` say what a run is, and its `RailEquations`
//! what bit each wire has in each cycle.
#![tactic(auto)]

mod drocs;
mod examples;
mod moments;
mod opening;
mod orders;
mod pending;
mod rails;
mod reacting;
mod states;
mod worlds;

pub use examples::examples_deliver;
pub use moments::{moments_of_worlds, pulses_on_wires};
pub use orders::{
    every_order, every_order_without_cells, pulses_per_cycle, rails_to_bits, whole_runs,
};
pub use worlds::World;
