//! Sources that are written from parts: the text in ASCII AIGER 1.9 of variables, inputs, latches, outputs, conjunctions and names, and
//! the machine as which it is read. There is no code here but laws.
#![tactic(auto)]

mod laws;

pub use laws::source_texts_are_read;
