//! The ledger of a netlist that is being made: which of its wires are open, that is, still to be read.
//!
//! Whoever makes a netlist line by line keeps the list of open wires: a line opens the wires that it drives, which
//! are the next ones in order, and closes those that it reads. A feed that is still to be mended is a debt. Where
//! nothing is open and no debt is left, each wire has one driver and one reader, and no gate stands in a loop.
//! The ledger is a thought of the proofs: there is no table of it at run time.
#![tactic(auto)]

mod laws;

pub use laws::{ledger_ends, ledger_lines};
