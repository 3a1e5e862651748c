//! From a machine's graph and its needed rails to a netlist.
#![tactic(auto)]

mod circuits;
mod constants;
mod counting;
mod drafts;
mod fronts;
mod gates;
mod input_loops;
mod inputs;
mod latch_loops;
mod latches;
mod mapping;
mod output_loops;
mod outputs;
mod pending;
mod port_names;
mod rails;
mod shelves;
mod starts;

pub use mapping::map;
