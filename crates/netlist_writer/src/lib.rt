//! The writer of netlists: the one text of a netlist, word by word, to any sink, without memory.

#![tactic(auto)]

mod lines;
mod words;
mod writing;

pub use writing::write_netlist;
