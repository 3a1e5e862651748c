//! Machines as a source gives them: nets, latches and equations, before any graph is built.
//!
//! A machine is read from BLIF or from AIGER 1.9. Its equations are sums of products over nets.
#![tactic(auto)]

mod additions;
mod covers;
mod dependencies;
mod fitting;
mod grounding;
mod laws;
mod lowest_nets;
mod machines;
mod net_numbers;
mod places;
mod unset;
mod valuations;

pub use covers::Cover;
pub use grounding::{Grounding, Machine, ground};
pub use laws::{examples, one_run, one_verdict};
pub use machines::{Equation, Latch, RawMachine};
pub use places::Place;
pub use unset::Unset;
pub use valuations::{Values, step};
