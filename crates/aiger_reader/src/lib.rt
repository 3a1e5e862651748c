//! AIGER 1.9 sources in pieces of any size, in both spellings.
//!
//! The profile is the standard's without justice and fairness properties: latches with resets, symbols and
//! comments are read. What a source says stands in `specs/Sources.antt`, above the units of a text, the refusal
//! of a unit after those before it, and the machine that the units of each section tell.
#![tactic(auto)]

mod adding;
mod built;
mod deltas;
mod finishing;
mod headers;
mod laws;
mod line_checks;
mod numbers;
mod pieces;
mod placing;
mod readers;
mod readings;
mod refusals;
mod sections;
mod symbols;
mod units;

pub use laws::early_refusals_stand;
pub use readers::AigerReader;
pub use refusals::{AigerCause, AigerFault, AigerRefusal};
