//! Latch pairs and constants, made of DROC cells.
//!
//! A latch is a front, which takes the positive rail of the next state, and a back, whose outputs are the rails of
//! the state. A constant is a cell that feeds itself: its `q` is the rail of 1 and its `n` the rail of 0.
#![tactic(auto)]

mod constants;
mod pairs;

pub use constants::{ConstLeaves, constant};
pub use pairs::{HalfPair, begin_pair, finish_pair};
