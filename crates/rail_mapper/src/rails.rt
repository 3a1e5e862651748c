//! The numbers of rails: twice that of the node for the positive rail, and one more for the negative one.

ghost use Rattle.std.specs.Prelude.{◌≡◌, ◌<◌, ◌^◌};
ghost use Rattle.rail_mapper.specs.Labels.{rail_number, literal_number};

use pulse_ids::{Ident, NodeLit, Sign};

/// The number of a node's rail.
pub(crate) fn rail_of(node: u32, sign: Sign) -> u32
    requires { node < 2 ^ 30 }
    ensures { result ≡ rail_number node sign }
{
    match sign {
        Sign::Pos => 2 * node,
        Sign::Neg => 2 * node + 1,
    }
}

/// The number of a literal's rail.
pub(crate) fn literal_rail(literal: NodeLit, sign: Sign) -> u32
    requires { literal.id.number < 2 ^ 30 }
    ensures { result ≡ literal_number literal sign }
{
    rail_of(literal.node().number(), literal.rail_sign(sign))
}
