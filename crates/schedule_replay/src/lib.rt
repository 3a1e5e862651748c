//! Deliveries of a world of pulses by an order or by a script, and the reader of the vectors and scripts of a simulation.
#![tactic(auto)]

mod choosers;
mod laws;
mod logs;
mod pieces;
mod readers;
mod readings;
mod refusals;
mod replaying;
mod settling;
mod tables;
mod vector_lines;
mod vectors;

pub use choosers::{Choose, Chooser};
pub use laws::{
    cycles_of_orders, deliveries_in_turn, early_refusals_stand, one_replay, scripts_end,
    texts_have_their_form,
};
pub use logs::Log;
pub use readers::VectorReader;
pub use refusals::VectorRefusal;
pub use replaying::{ScriptFault, replay};
pub use settling::settle;
pub use vectors::Vectors;
