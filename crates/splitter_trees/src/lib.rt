//! Balanced trees of splitters: one wire is spread over several readers.
//!
//! A wire has one reader. Where a signal has more, a splitter gives two wires for one, and a tree of them as many
//! as there are readers, with the fewest splitters on the longest way.
#![tactic(auto)]

mod leaves;
mod spreading;

pub use leaves::Leaves;
pub use spreading::spread;
