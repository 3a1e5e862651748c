//! A graph with the literals of a machine's outputs and next states.

ghost use Rattle.std.specs.Prelude.{◌≡◌, ◌<◌, length, slice_get, Some};
ghost use Rattle.aig_core.specs.Graphs.{count_of};
ghost use Rattle.graph_build.specs.Built.{IsWithinGraph};

use aig_core::Graph;
use pulse_ids::NodeLit;
use std::marker::Model;

/// The graph of a machine, with a literal for each output and for each latch's next state, and the
/// latches' first bits. Input `k` of the graph is input port `k`, and latch `k` is latch `k`.
#[derive(Debug, Drop)]
pub struct Built {
    pub(crate) graph: Graph,
    pub(crate) outputs: Vec<NodeLit>,
    pub(crate) nexts: Vec<NodeLit>,
    pub(crate) inits: Vec<bool>,
}

impl Model for Built {
    ghost use Rattle.graph_build.specs.Built.{PlainBuilt, IsWithinGraph};

    ghost Value = { PlainBuilt };

    ghost view = { λ built. record { graph = built.graph; outputs = built.outputs.items; nexts = built.nexts.items; inits = built.inits.items } };

    ghost invariant = { λ built. IsWithinGraph (record { graph = built.graph; outputs = built.outputs.items; nexts = built.nexts.items; inits = built.inits.items }) };
}

impl Built {
    /// The graph.
    pub fn graph(&self) -> &Graph
        ensures graph { result.now ≡ self.now.graph }
        ensures within { IsWithinGraph self.now }
    {
        &self.graph
    }

    /// How many outputs there are.
    pub fn outputs(&self) -> u32
        ensures count { result ≡ length self.now.outputs }
        ensures within { IsWithinGraph self.now }
    {
        let _ = &self.graph; // the proof learns the invariant where a field is named
        self.outputs.len() as u32
    }

    /// The literal of the output `k`, which is below the number of outputs.
    pub fn output(&self, k: u32) -> NodeLit
        requires { k < length self.now.outputs }
        ensures literal { slice_get self.now.outputs k ≡ Some result }
        ensures within { result.id.number < count_of self.now.graph }
    {
        let _ = &self.graph; // the proof learns the invariant where a field is named
        self.outputs[k as usize]
    }

    /// How many latches there are.
    pub fn latches(&self) -> u32
        ensures count { result ≡ length self.now.nexts }
        ensures within { IsWithinGraph self.now }
    {
        let _ = &self.graph; // the proof learns the invariant where a field is named
        self.nexts.len() as u32
    }

    /// The literal of the next state of the latch `k`, which is below the number of latches.
    pub fn next(&self, k: u32) -> NodeLit
        requires { k < length self.now.nexts }
        ensures literal { slice_get self.now.nexts k ≡ Some result }
        ensures within { result.id.number < count_of self.now.graph }
    {
        let _ = &self.graph; // the proof learns the invariant where a field is named
        self.nexts[k as usize]
    }

    /// The first bit of the latch `k`, which is below the number of latches.
    pub fn init(&self, k: u32) -> bool
        requires { k < length self.now.nexts }
        ensures { slice_get self.now.inits k ≡ Some result }
    {
        let _ = &self.graph; // the proof learns the invariant where a field is named
        self.inits[k as usize]
    }
}
