//! Lists of lists in one flat table, with no memory for each of them but a place.
#![tactic(auto)]

mod flat_lists;

pub use flat_lists::FlatLists;
