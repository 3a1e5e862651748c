//! The numbers, literals, names and typed rows that every layer of the compiler shares.
//!
//! A number of one kind (a net, a wire, a cell, a rail, a graph node) is a type of its own, so a table
//! of one kind cannot be read with a number of another.
#![tactic(auto)]

mod bits;
mod ids;
mod laws;
mod literals;
mod memory;
mod names;
mod quantities;
mod rows;

pub use bits::Bits;
pub use ids::{
    CellId, CellKind, Id, Ident, NetId, NetKind, NodeId, NodeKind, RailId, RailKind, WireId,
    WireKind,
};
pub use laws::constant_codes;
pub use literals::{Lit, Literal, NodeLit, Sign};
pub use memory::NoMemory;
pub use names::Name;
pub use quantities::Quantity;
pub use rows::Row;
