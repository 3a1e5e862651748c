//! The four kinds of nodes.

use pulse_ids::NodeLit;

/// What a node of a graph stands for.
#[derive(Clone, Copy, Debug, PartialEq, Eq)]
pub enum Node {
    /// The constant 0, which is node 0.
    False,
    /// The input of this number, from 0.
    Input(u32),
    /// The latch of this number, from 0.
    Latch(u32),
    /// The conjunction of two literals, the one of the lower code first.
    And(NodeLit, NodeLit),
}
