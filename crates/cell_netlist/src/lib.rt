//! Netlists of pulse cells, the tables of the cells, and (in `specs/`) the world of pulses.
//!
//! In alternating logic a cycle has two phases, excite and then relax. A rail of value v carries a pulse
//! in excite exactly where v is 1, and in relax exactly where v is 0.
#![tactic(auto)]

mod cell_wires;
mod equations;
mod examples;
mod kinds;
mod laws;
mod lines;
mod netlists;
mod place_tables;
mod sound_nets;
mod tables;
mod unsound;
mod upsets;
mod wired_nets;

pub use equations::equation_runs;
pub use examples::examples_hold;
pub use kinds::{Ask, CellState, Gate, Held, Phase, Port, Role, Version};
pub use laws::{
    another_feed, lean_decisions, leaves_of_roots, more_lines, one_place_a_wire, one_refusal,
    places_of_wires, readers_of_wires, roots_of_wires, sound_decisions, texts_of_netlists,
};
pub use lines::{Cell, Driver, Rail, Reader, StateLine};
pub use netlists::Netlist;
pub use sound_nets::SoundNet;
pub use tables::{arrive, feed_bit};
pub use unsound::{RailLine, Unsound};
pub use upsets::upsets_of_cells;
pub use wired_nets::WiredNet;
