//! The text of a simulation, written as its cycles are made, by an order of deliveries or by scripts, and the counts
//! of its pulses.
#![tactic(auto)]

mod cycles;
mod digits;
mod laws;
mod lines;
mod orders;
mod pulse_counts;
mod rooms;
mod scripts;
mod simulations;

pub use laws::{
    every_order_says_the_same, one_count, one_replay, one_simulation, simulations_exist,
};
pub use orders::DeliveryOrder;
pub use pulse_counts::PulseCounts;
pub use scripts::CycleFault;
pub use simulations::Simulation;
