//! The rails of nodes and of literals.

ghost use Rattle.std.specs.Prelude.{◌≡◌};
ghost use Rattle.pulse_ids.specs.declared.literals.Sign.TheVariants.{Pos};
ghost use Rattle.rail_demand.specs.Rails.{literal_rail};

use pulse_ids::{NodeId, NodeLit, Sign};

/// One of the two rails of a node of a graph.
#[derive(Clone, Copy, Debug, PartialEq, Eq)]
pub struct NodeRail {
    /// The node.
    pub node: NodeId,
    /// The positive rail carries the node's bit, and the negative one the complement.
    pub sign: Sign,
}

/// The rail of a literal: that of its node, of the other sign where the literal is negated.
pub fn literal_rail(literal: NodeLit, sign: Sign) -> NodeRail
    ensures { result ≡ literal_rail literal sign }
{
    NodeRail {
        node: literal.node(),
        sign: literal.rail_sign(sign),
    }
}

/// The rail that a latch needs of the literal that it holds next: the positive one.
pub(crate) fn next_rail(next: NodeLit) -> NodeRail
    ensures { result ≡ literal_rail next Pos }
{
    literal_rail(next, Sign::Pos)
}
