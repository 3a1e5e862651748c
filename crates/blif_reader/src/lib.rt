//! BLIF sources in pieces of any size.
//!
//! The profile is one model of `.inputs`, `.outputs`, `.names` and generic latches with one clock. What a source says
//! stands in `specs/Sources.antt`, above its logical lines: what each line says after those before it, the refusal of
//! the first one that is refused, the faults of the whole text, and the machine that the lines tell.
#![tactic(auto)]

mod clocks;
mod finishing;
mod latch_kinds;
mod latches;
mod laws;
mod logical_lines;
mod open_equations;
mod pieces;
mod ports;
mod readers;
mod readings;
mod refusals;
mod rows;
mod statements;
mod states;
mod uses;

pub use laws::{early_refusals_stand, refusals_are_told, sources_are_told, verdicts_are_told};
pub use readers::BlifReader;
pub use refusals::{BlifCause, BlifFault, BlifRefusal};
