//! Literals over nets and over graph nodes, and the signs of rails.

ghost use Rattle.std.specs.Prelude.{◌≡◌, ◌<◌, ◌^◌, false, not};
ghost use Rattle.pulse_ids.specs.Literals.{flipped, code_of, rail_sign};

use crate::ids::{Id, NetId, NetKind, NodeId, NodeKind};
use std::marker::PhantomData;

/// The sign of a rail: the positive rail of a signal carries its bit, the negative rail the complement.
#[derive(Clone, Copy, Debug, PartialEq, Eq, Hash, PartialOrd, Ord)]
pub enum Sign {
    Pos,
    Neg,
}

impl Sign {
    /// The other sign.
    pub fn flip(self) -> Sign
        ensures { result ≡ flipped self }
    {
        match self {
            Sign::Pos => Sign::Neg,
            Sign::Neg => Sign::Pos,
        }
    }
}

/// The bit of what a number of the kind `K` names, or its complement.
#[derive(Clone, Copy, Debug, PartialEq, Eq, Hash, PartialOrd, Ord)]
pub struct Literal<K> {
    id: Id<K>,
    negated: bool,
}

/// A literal over nets. Net 0 is the constant false.
pub type Lit = Literal<NetKind>;

/// A literal over graph nodes. Node 0 is the constant false.
pub type NodeLit = Literal<NodeKind>;

impl<K: Copy> Literal<K> {
    /// The literal of `id`, negated or not. The number is below 2^31, so that the literal has a code.
    pub fn new(id: Id<K>, negated: bool) -> Literal<K>
        requires { id.number < 2 ^ 31 }
        ensures id { result.id ≡ id }
        ensures negated { result.negated ≡ negated }
    {
        Literal { id, negated }
    }

    /// Whether the literal is the complement of the bit.
    pub fn negated(self) -> bool
        ensures { result ≡ self.negated }
    {
        self.negated
    }

    /// The complement.
    pub fn flip(self) -> Literal<K>
        ensures id { result.id ≡ self.id }
        ensures negated { result.negated ≡ not self.negated }
    {
        Literal {
            id: self.id,
            negated: !self.negated,
        }
    }

    /// The sign of the rail, of what the literal's number names, that is the literal's rail of this sign: the other
    /// sign where the literal is negated.
    pub fn rail_sign(self, sign: Sign) -> Sign
        ensures { result ≡ rail_sign self sign }
    {
        if self.negated { sign.flip() } else { sign }
    }

    /// The code of AIGER: twice the number, plus 1 where negated. The number is below 2^31.
    pub fn code(self) -> u32
        requires { self.id.number < 2 ^ 31 }
        ensures { result ≡ code_of self.id.number self.negated }
    {
        2 * self.id.number + self.negated as u32
    }
}

impl Literal<NetKind> {
    /// The constant 0: net 0, not negated.
    pub const FALSE: Lit = Literal {
        id: Id {
            number: 0,
            kind: PhantomData,
        },
        negated: false,
    };

    /// The constant 1: net 0, negated.
    pub const TRUE: Lit = Literal {
        id: Id {
            number: 0,
            kind: PhantomData,
        },
        negated: true,
    };

    /// The net.
    pub fn net(self) -> NetId
        ensures { result ≡ self.id }
    {
        self.id
    }
}

impl Literal<NodeKind> {
    /// The constant 0: node 0, not negated.
    pub const FALSE: NodeLit = Literal {
        id: Id {
            number: 0,
            kind: PhantomData,
        },
        negated: false,
    };

    /// The constant 1: node 0, negated.
    pub const TRUE: NodeLit = Literal {
        id: Id {
            number: 0,
            kind: PhantomData,
        },
        negated: true,
    };

    /// The node.
    pub fn node(self) -> NodeId
        ensures { result ≡ self.id }
    {
        self.id
    }
}

impl<K: Copy> Default for Literal<K> {
    ghost is_default = { λ lit. (lit.id.number ≡ 0) × (lit.negated ≡ false) };

    fn default() -> Literal<K> {
        Literal {
            id: Id {
                number: 0,
                kind: PhantomData,
            },
            negated: false,
        }
    }
}
