//! For each rail of a graph, whether it is needed.

ghost use Rattle.std.specs.Prelude.{◌≡◌, ◌<◌, IfOk};
ghost use Rattle.rail_demand.specs.Demands.{nodes_in, is_needed};
ghost use Rattle.rail_demand.specs.Searching.{none_of, with_rail};

use pulse_ids::{Bits, NoMemory, NodeId, Sign};
use std::alloc::Global;
use std::marker::Model;

/// For each node of a graph and each sign, whether that rail is needed, in one bit of memory each.
#[derive(Debug, Drop)]
pub struct Demand {
    positive: Bits<NodeId>,
    negative: Bits<NodeId>,
}

impl Model for Demand {
    ghost use Rattle.std.specs.Prelude.{◌≡◌, length};
    ghost use Rattle.rail_demand.specs.Demands.{PlainDemand};

    ghost Value = { PlainDemand };

    ghost view = { λ demand. record { positive = demand.positive; negative = demand.negative } };

    ghost invariant = { λ demand. length demand.negative ≡ length demand.positive };
}

impl Demand {
    /// No rail of so many nodes.
    pub(crate) fn none(alloc: Global, nodes: u32) -> Result<Demand, NoMemory>
        ensures { IfOk result (λ demand. demand ≡ none_of nodes) }
    {
        let positive = Bits::filled(alloc, nodes)?;
        let negative = Bits::filled(alloc, nodes)?;
        Ok(Demand { positive, negative })
    }

    /// Whether the rail of this sign of the node is needed. The node is one of those that the demand
    /// tells of, which are the nodes of the graph that it was made for.
    #[tactic(auto, using(crate::proofs::DemandBits::bit_given))]
    pub fn needs(&self, node: NodeId, sign: Sign) -> bool
        requires { node.number < nodes_in self.now }
        ensures { result ≡ is_needed self.now node.number sign }
    {
        match sign {
            Sign::Pos => self.positive.get(node),
            Sign::Neg => self.negative.get(node),
        }
    }

    /// Makes the rail of this sign of the node needed.
    pub(crate) fn add(&mut self, node: NodeId, sign: Sign)
        requires { node.number < nodes_in self.old }
        ensures { self.new ≡ with_rail self.old node.number sign }
    {
        match sign {
            Sign::Pos => self.positive.set(node, true),
            Sign::Neg => self.negative.set(node, true),
        }
    }
}
