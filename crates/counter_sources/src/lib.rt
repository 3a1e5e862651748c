//! Made counters beside sources: the text of a counter in AIGER 1.9, and that it is read as that counter. There is no code here
//! but laws.
#![tactic(auto)]

mod laws;

pub use laws::counters_are_read;
