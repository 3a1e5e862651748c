//! Names with their numbers, from 1 by first appearance.
#![tactic(auto)]

mod name_tables;
mod name_texts;
mod names;

pub use names::Names;
