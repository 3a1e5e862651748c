//! The graph: its nodes by their numbers, and the one way in which it grows.

ghost use Rattle.std.specs.Prelude.{◌≡◌, ℕ, ◌+◌, ◌<◌, ◌≤◌, ◌&&◌, List, [], Bool, Some, Ok, length, slice_get, OnErr, IfOk};
ghost use Rattle.pulse_ids.specs.Ids.{NodeLit as Literal};
ghost use Rattle.aig_core.specs.Folds.{positive, FoldsTo, IsFoldable};
ghost use Rattle.aig_core.specs.Graphs.{nodes_of, first_conjunction, count_of, with_pair, conjunction};
ghost use Rattle.aig_core.specs.Growth.{Grows};
ghost use Rattle.aig_core.specs.Pairs.{pair_of};
ghost use Rattle.aig_core.specs.Tidy.{IsKept, IsTidyPair, IsAbsent};
ghost use Rattle.aig_core.specs.Values.{value_of};
ghost use Rattle.pulse_ids.specs.Lists.{bit_at};
ghost use Rattle.pulse_ids.specs.Quantities.{greatest_of};
ghost use Rattle.pulse_ids.specs.declared.quantities.Quantity.TheVariants.{Inputs, Latches, Size};

use crate::folds::folded;
use crate::kept_pairs::KeptPairs;
use crate::nodes::Node;
use crate::pairs::{Pair, ordered};
use pulse_ids::{Ident, NoMemory, NodeId, NodeLit};
use std::alloc::Global;
use std::marker::Model;

/// An and-inverter graph. Node 0 is the constant 0, then come the inputs, the latches and the
/// conjunctions, each conjunction after the nodes of its two literals. No two conjunctions hold the
/// same pair of literals, and none has a constant in its pair, or one node twice.
#[derive(Debug, Drop)]
pub struct Graph {
    inputs: u32,
    latches: u32,
    pairs: KeptPairs,
}

impl Model for Graph {
    ghost use Rattle.aig_core.specs.Graphs.{PlainGraph};
    ghost use Rattle.aig_core.specs.KeptPairs.{pairs_of};
    ghost use Rattle.aig_core.specs.Tidy.{IsKept};

    ghost Value = { PlainGraph };

    ghost view = { λ graph. record { inputs = graph.inputs; latches = graph.latches; pairs = pairs_of graph.pairs } };

    ghost invariant = { λ graph. IsKept (record { inputs = graph.inputs; latches = graph.latches; pairs = pairs_of graph.pairs }) };
}

impl Graph {
    /// A graph with these numbers of inputs and latches, each at most 16,384, and no conjunction. It
    /// takes no memory.
    pub fn new(alloc: Global, inputs: u32, latches: u32) -> Graph
        requires inputs { inputs ≤ greatest_of Inputs }
        requires latches { latches ≤ greatest_of Latches }
        ensures graph { result ≡ record { inputs = inputs; latches = latches; pairs = [] } }
        ensures kept { IsKept result }
    {
        Graph {
            inputs,
            latches,
            pairs: KeptPairs::new(alloc),
        }
    }

    /// How many nodes the graph has.
    #[tactic(auto, using(crate::proofs::NodeLemmas::length_nodes))]
    pub fn len(&self) -> u32
        ensures nodes { result ≡ length (nodes_of self.now) }
        ensures count { result ≡ count_of self.now }
        ensures kept { IsKept self.now }
    {
        self.first_conjunction() + self.pairs.len() as u32
    }

    /// The literal of the input `k`, which is below the number of inputs.
    pub fn input(&self, k: u32) -> NodeLit
        requires { k < self.now.inputs }
        ensures literal { result ≡ positive (1 + k) }
        ensures node { slice_get (nodes_of self.now) result.id.number ≡ Some (Node.Input k) }
        ensures value { (state vector : List Bool) → value_of self.now state vector result ≡ bit_at vector k }
    {
        let _ = &self.inputs; // the proof learns the invariant where a field is named
        NodeLit::new(NodeId::new(1 + k), false)
    }

    /// The literal of the latch `k`, which is below the number of latches.
    pub fn latch(&self, k: u32) -> NodeLit
        requires { k < self.now.latches }
        ensures literal { result ≡ positive (1 + self.now.inputs + k) }
        ensures node { slice_get (nodes_of self.now) result.id.number ≡ Some (Node.Latch k) }
        ensures value { (state vector : List Bool) → value_of self.now state vector result ≡ bit_at state k }
    {
        NodeLit::new(NodeId::new(1 + self.inputs + k), false)
    }

    /// The node of this number, which is below the number of nodes.
    pub fn node(&self, id: NodeId) -> Node
        requires { id.number < count_of self.now }
        ensures { slice_get (nodes_of self.now) id.number ≡ Some result }
    {
        let number = id.number();
        if number == 0 {
            Node::False
        } else if number <= self.inputs {
            Node::Input(number - 1)
        } else if number <= self.inputs + self.latches {
            Node::Latch(number - 1 - self.inputs)
        } else {
            self.conjunction(number - self.first_conjunction())
        }
    }

    /// The literal of the conjunction of `a` and `b`, whose nodes are in the graph, which has fewer
    /// than 262,144 conjunctions. Where the conjunction folds (with a constant, with itself or with
    /// its complement) or some node holds the pair, the graph stays as it is. Elsewhere one node is
    /// added, last. Where memory is refused the graph is unchanged.
    pub fn and(&mut self, a: NodeLit, b: NodeLit) -> Result<NodeLit, NoMemory>
        requires a { a.id.number < count_of self.old }
        requires b { b.id.number < count_of self.old }
        requires room { length self.old.pairs < greatest_of Size }
        ensures value { IfOk result (λ literal. (state vector : List Bool) → value_of self.new state vector literal ≡ (value_of self.old state vector a && value_of self.old state vector b)) }
        ensures folded { (literal : Literal) → FoldsTo a b literal → (result ≡ Ok literal) × (self.new ≡ self.old) }
        ensures found { (place : ℕ) → slice_get self.old.pairs place ≡ Some (pair_of a b)
            → (result ≡ Ok (positive (first_conjunction self.old + place))) × (self.new ≡ self.old) }
        ensures added { (IsFoldable a b → ⊥) → IsAbsent self.old (pair_of a b)
            → IfOk result (λ literal. (literal ≡ positive (count_of self.old)) × (self.new ≡ with_pair self.old (pair_of a b))) }
        ensures within { IfOk result (λ literal. literal.id.number < count_of self.new) }
        ensures grows { Grows self.old self.new }
        ensures err { OnErr result (self.new ≡ self.old) }
        ensures kept { IsKept self.new }
    {
        let _ = &self.inputs; // the proof learns the invariant where a field is named
        match folded(a, b) {
            Some(literal) => Ok(literal),
            None => self.place(ordered(a, b)),
        }
    }

    /// Gives back the memory by which `and` looks pairs up. It takes time linear in the conjunctions,
    /// and memory for a copy of their pairs until it is done; where that is refused, nothing is given
    /// back. The next look-up takes the memory again and linear time, and so does each one after it
    /// that is refused that memory.
    pub fn shrink_to_fit(&mut self)
        ensures { self.new ≡ self.old }
    {
        self.pairs.drop_index();
    }

    /// The number of the first conjunction, there or to come.
    fn first_conjunction(&self) -> u32
        ensures number { result ≡ first_conjunction self.now }
        ensures kept { IsKept self.now }
    {
        1 + self.inputs + self.latches
    }

    /// The conjunction at this place among the conjunctions.
    fn conjunction(&self, place: u32) -> Node
        requires { place < length self.now.pairs }
        ensures { slice_get (nodes_of self.now) (first_conjunction self.now + place) ≡ Some result }
    {
        let pair = self.pairs.as_slice()[place as usize];
        Node::And(pair.low(), pair.high())
    }

    /// The literal of the conjunction at this place among the conjunctions, at most 262,144.
    fn conjunction_literal(&self, place: u32) -> NodeLit
        requires { place ≤ greatest_of Size }
        ensures literal { result ≡ positive (first_conjunction self.now + place) }
        ensures kept { IsKept self.now }
    {
        NodeLit::new(NodeId::new(self.first_conjunction() + place), false)
    }

    /// The literal of the conjunction that holds the pair, which is added last where there is none.
    /// The pair may stand there, and there are fewer than 262,144 conjunctions.
    fn place(&mut self, pair: Pair) -> Result<NodeLit, NoMemory>
        requires pair { IsTidyPair (count_of self.old) pair }
        requires room { length self.old.pairs < greatest_of Size }
        ensures found { (place : ℕ) → slice_get self.old.pairs place ≡ Some pair → (result ≡ Ok (positive (first_conjunction self.old + place))) × (self.new ≡ self.old) }
        ensures added { IsAbsent self.old pair → IfOk result (λ literal. (literal ≡ positive (count_of self.old)) × (self.new ≡ with_pair self.old pair)) }
        ensures err { OnErr result (self.new ≡ self.old) }
        ensures kept { IsKept self.new }
    {
        let place = self.pairs.place(pair)?;
        Ok(self.conjunction_literal(place as u32))
    }
}
