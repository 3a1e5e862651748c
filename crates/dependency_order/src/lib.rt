//! Orders of items, each after all that it needs, and the least set of numbers that they reach.
//!
//! An item needs some numbers and yields some. A number is known at the start, or once an item that yields
//! it has come. An item can come once all that it needs is known.
#![tactic(auto)]

mod agendas;
mod dependencies;
mod laws;
mod lists;
mod orders;
mod progress;
mod readers;
mod search;

pub use agendas::{Agenda, Arrival, Lowest};
pub use dependencies::{Dependencies, Totals};
pub use laws::examples;
pub use orders::{Order, arrival_order, lowest_order, order_of};
