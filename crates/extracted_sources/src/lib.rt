//! Netlists that are read back beside sources: the text in ASCII AIGER 1.9 is judged to be a machine, whose outputs are the netlist's
//! pulses in every order. There is no code here but laws.
#![tactic(auto)]

mod laws;

pub use laws::extracts_are_read;
