//! And-inverter graphs in which no conjunction stands twice and none can be folded away.
//!
//! A graph grows by [`Graph::and`] alone, which looks the pair of its literals up in a hashed set. Once a
//! graph is built, [`Graph::shrink_to_fit`] gives the memory of that look-up back.
#![tactic(auto)]

mod folds;
mod graphs;
mod kept_pairs;
mod laws;
mod nodes;
mod pairs;

pub use graphs::Graph;
pub use laws::{examples, nodes_have_places, nodes_have_values};
pub use nodes::Node;
