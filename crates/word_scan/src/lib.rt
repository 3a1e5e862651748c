//! Lines, words and decimals of a text that comes in pieces of any size.
#![tactic(auto)]

mod dark_words;
mod decimals;
mod lines;
mod logical;
mod parts;
mod words;

pub use dark_words::next_dark_word;
pub use decimals::{decimal, plain_decimal};
pub use lines::{Lines, Taken};
pub use logical::{Logical, has_strange};
pub use words::{next_word, part_at};
