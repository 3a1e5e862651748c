//! The two literals of a conjunction, in order.

ghost use Rattle.std.specs.Prelude.{◌≡◌, ◌<◌, ◌^◌, ◌↔◌, IsTrue};
ghost use Rattle.aig_core.specs.Pairs.{pair_of};
ghost use Rattle.aig_core.specs.PlainPairs.{coded_literal};

use pulse_ids::{Ident, NodeId, NodeLit};
use std::marker::Model;

/// The two literals of a conjunction, the one of the lower code first. It keeps their codes, in 8 bytes.
#[derive(Clone, Copy, Debug, PartialEq, Eq, Hash)]
pub struct Pair {
    low: u32,
    high: u32,
}

impl Model for Pair {
    ghost use Rattle.pulse_ids.specs.Literals.{code_of};
    ghost use Rattle.aig_core.specs.PlainPairs.{PlainPair, coded_literal, code_of_coded};

    ghost Value = { PlainPair };

    ghost view = { λ pair. record { low = coded_literal pair.low; high = coded_literal pair.high } };

    ghost inverse = { λ pair. record { low = code_of pair.low.id.number pair.low.negated; high = code_of pair.high.id.number pair.high.negated } };

    ghost inverse_ok = { λ pair _ i. record { low = code_of_coded pair.low i; high = code_of_coded pair.high i } };
}

impl Pair {
    /// The pair of two literals, whose numbers are below 2^31.
    fn new(low: NodeLit, high: NodeLit) -> Pair
        requires low { low.id.number < 2 ^ 31 }
        requires high { high.id.number < 2 ^ 31 }
        ensures { result ≡ record { low = low; high = high } }
    {
        Pair {
            low: low.code(),
            high: high.code(),
        }
    }

    /// Whether both pairs are the same.
    #[tactic(auto, using(crate::proofs::PairLemmas::pair_exact, crate::proofs::PairLemmas::pair_self))]
    pub(crate) fn is(self, other: Pair) -> bool
        ensures { IsTrue result ↔ (self ≡ other) }
    {
        self == other
    }

    /// The literal of the lower code.
    pub(crate) fn low(self) -> NodeLit
        ensures { result ≡ self.low }
    {
        decoded(self.low)
    }

    /// The literal of the higher code.
    pub(crate) fn high(self) -> NodeLit
        ensures { result ≡ self.high }
    {
        decoded(self.high)
    }
}

/// The literal of this code.
fn decoded(code: u32) -> NodeLit
    ensures { result ≡ coded_literal code }
{
    NodeLit::new(NodeId::new(code / 2), code % 2 == 1)
}

/// Both literals, the one of the lower code first. Each number is below 2^31.
pub(crate) fn ordered(a: NodeLit, b: NodeLit) -> Pair
    requires a { a.id.number < 2 ^ 31 }
    requires b { b.id.number < 2 ^ 31 }
    ensures { result ≡ pair_of a b }
{
    if a.code() < b.code() {
        Pair::new(a, b)
    } else {
        Pair::new(b, a)
    }
}
