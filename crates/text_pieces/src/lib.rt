//! Texts that are written piece by piece, without memory.
#![tactic(auto)]

mod pieces;

pub use pieces::{Piece, write_numbered, write_pieces};
