//! Netlist texts in pieces of any size.
//!
//! What a text says stands in `specs/Verdicts.antt`, above what a line says (`Statements`), the limits that it is
//! judged against (`Limits`), and where it may stand (`Places`).
#![tactic(auto)]

mod built;
mod laws;
mod limits;
mod pieces;
mod places;
mod readers;
mod readings;
mod refusals;
mod statements;
mod words;

pub use laws::{early_refusals_stand, texts_are_read};
pub use readers::NetReader;
pub use readings::Fed;
pub use refusals::NetRefusal;
