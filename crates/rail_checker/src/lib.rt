//! Whether a netlist is sound, and else the first rule of soundness that it breaks.
//!
//! The rules are judged in their order. Each has a function that is given a netlist which breaks none of the
//! earlier rules, and answers the lowest place at which its rule is broken.
#![tactic(auto)]

mod checking;
mod counting;
mod driving_cells;
mod grounding;
mod links;
mod rails;
mod repeats;
mod roles;
mod roots;
mod scans;
mod states;

pub use checking::{Refused, check, check_wires};
pub use roots::wire_roots;
