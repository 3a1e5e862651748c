//! The reader of the input of a simulation: a netlist's text, and the text of its vectors after it.
#![tactic(auto)]

mod laws;
mod readers;
mod refusals;

pub use laws::{
    early_refusals_stand, inputs_have_their_form, long_inputs_are_refused, refusals_are_of_bytes,
};
pub use readers::{SimulationInput, SimulationReader};
pub use refusals::InputRefusal;
