//! The cells of a sound netlist in an order in which each LA, FA and splitter comes after those that it reads.
#![tactic(auto)]

mod order;

pub use order::{cell_order, driving_cell};
