//! The search for the needed rails, from the outputs on.

ghost use Rattle.std.specs.Prelude.{◌≡◌, ◌*◌, ◌<◌, ◌≤◌, [], ◌∷◌, map, length, slice_get, Some, IfOk};
ghost use Rattle.cell_netlist.specs.declared.kinds.Ask.{Ask as Asks};
ghost use Rattle.cell_netlist.specs.Asked.{signs_of};
ghost use Rattle.aig_core.specs.Graphs.{count_of};
ghost use Rattle.rail_demand.specs.Demands.{nodes_in, Needed, IsDemand};
ghost use Rattle.rail_demand.specs.Rails.{literal_rail};
ghost use Rattle.rail_demand.specs.Searching.{none_of, HasRoom, Finds, FindsAll, IsStage, Steps, AreNeeded, IsClosedAt, IsClosedBefore, HasOutputs};

use crate::demands::Demand;
use crate::rails::{NodeRail, literal_rail, next_rail};
use aig_core::{Node, nodes_have_places, nodes_have_values};
use cell_netlist::Ask;
use graph_build::Built;
use pulse_ids::{NoMemory, NodeLit, Sign};
use std::alloc::Global;
use std::marker::Model;

/// The rails found so far, as a demand and in the order in which they were found.
#[derive(Drop)]
struct Search {
    demand: Demand,
    found: Vec<NodeRail>,
}

impl Model for Search {
    ghost use Rattle.std.specs.Prelude.{vec_capacity};
    ghost use Rattle.rail_demand.specs.Searching.{Stage};

    ghost Value = { Stage };

    ghost view = { λ search. record { demand = search.demand; found = search.found.items; room = vec_capacity search.found } };
}

impl Search {
    /// Nothing found among the rails of so many nodes, with room for all of them.
    fn begin(alloc: Global, nodes: u32) -> Result<Search, NoMemory>
        ensures demand { IfOk result (λ search. search.demand ≡ none_of nodes) }
        ensures found { IfOk result (λ search. search.found ≡ []) }
        ensures room { IfOk result (λ search. 2 * nodes ≤ search.room) }
    {
        let demand = Demand::none(alloc, nodes)?;
        let found = Vec::with_capacity(alloc, 2 * nodes as usize)?;
        Ok(Search { demand, found })
    }

    /// How many rails are found.
    fn len(&self) -> usize
        ensures { result ≡ length self.now.found }
    {
        self.found.len()
    }

    /// The rail that was found at this place.
    fn at(&self, place: usize) -> NodeRail
        requires { place < length self.now.found }
        ensures { slice_get self.now.found place ≡ Some result }
    {
        self.found[place]
    }

    /// Finds a rail. It takes no memory.
    fn find(&mut self, rail: NodeRail)
        requires room { HasRoom self.old }
        requires inside { rail.node.number < nodes_in self.old.demand }
        ensures finds { Finds rail self.old self.new }
        ensures room { HasRoom self.new }
        ensures nodes { nodes_in self.new.demand ≡ nodes_in self.old.demand }
    {
        if self.demand.needs(rail.node, rail.sign) {
            return;
        }
        self.demand.add(rail.node, rail.sign);
        self.found.push_reserved(rail);
    }

    /// Finds the rails of this sign of two literals.
    fn find_both(&mut self, low: NodeLit, high: NodeLit, sign: Sign)
        requires room { HasRoom self.old }
        requires low { low.id.number < nodes_in self.old.demand }
        requires high { high.id.number < nodes_in self.old.demand }
        ensures { FindsAll (literal_rail low sign ∷ literal_rail high sign ∷ []) self.old self.new }
    {
        self.find(literal_rail(low, sign));
        self.find(literal_rail(high, sign));
    }

    /// Finds the asked rails of an output.
    fn find_asked(&mut self, literal: NodeLit, ask: Ask)
        requires room { HasRoom self.old }
        requires inside { literal.id.number < nodes_in self.old.demand }
        ensures { FindsAll (map (literal_rail literal) (signs_of ask)) self.old self.new }
    {
        match ask {
            Ask::Pos => self.find(literal_rail(literal, Sign::Pos)),
            Ask::Neg => self.find(literal_rail(literal, Sign::Neg)),
            Ask::Both => {
                self.find(literal_rail(literal, Sign::Pos));
                self.find(literal_rail(literal, Sign::Neg));
            }
        }
    }

    /// Finds the asked rails of all outputs.
    fn find_outputs(&mut self, built: &Built, ask: Ask)
        requires { IsStage built.now self.old }
        ensures stage { IsStage built.now self.new }
        ensures outputs { HasOutputs built.now ask self.new.demand (length built.now.outputs) }
        ensures needed { AreNeeded built.now ask self.old.found → AreNeeded built.now ask self.new.found }
    {
        for port in 0..built.outputs() {
            self.find_asked(built.output(port), ask);
        }
    }

    /// Finds all that a rail needs at once.
    fn expand(&mut self, built: &Built, rail: NodeRail)
        requires stage { IsStage built.now self.old }
        requires inside { rail.node.number < count_of built.now.graph }
        ensures steps { Steps built.now self.old self.new }
        ensures closed { IsClosedAt built.now self.new.demand rail }
        ensures needed { (ask : Asks) → Needed built.now ask rail.node.number rail.sign
            → AreNeeded built.now ask self.old.found → AreNeeded built.now ask self.new.found }
    {
        nodes_have_places(); // a latch's node is that of one of the latches
        nodes_have_values(); // and a conjunction's is that of one of the pairs
        match built.graph().node(rail.node) {
            Node::And(low, high) => self.find_both(low, high, rail.sign),
            Node::Latch(latch) => self.find(next_rail(built.next(latch))),
            Node::Input(_) | Node::False => {}
        }
    }

    /// Finds what each found rail needs at once, until none is left.
    fn spread(&mut self, built: &Built)
        requires { IsStage built.now self.old }
        ensures steps { Steps built.now self.old self.new }
        ensures closed { IsClosedBefore built.now self.new (length self.new.found) }
        ensures needed { (ask : Asks) → AreNeeded built.now ask self.old.found → AreNeeded built.now ask self.new.found }
    {
        let mut done = 0;
        while done < self.len() {
            let rail = self.at(done);
            self.expand(built, rail);
            done += 1;
        }
    }

    /// The rails found, as a demand.
    fn into_demand(self) -> Demand
        ensures { result ≡ self.demand }
    {
        self.demand
    }
}

/// Which rails of the graph's nodes the asked rails of the outputs need: those rails themselves, with
/// each rail of a conjunction the rails of that sign of its two literals, and with each rail of a
/// latch, of either sign, the positive rail of what the latch holds next. A literal's rail of a sign
/// is its node's rail of that sign, or of the other one where the literal is negated. The answer
/// tells of each node of the graph, and no rail is needed but these.
///
/// Memory is taken at the start, in the number of nodes, or else the answer is `NoMemory`. The time is
/// linear in the number of nodes and of outputs.
pub fn demand(alloc: Global, built: &Built, ask: Ask) -> Result<Demand, NoMemory>
    ensures { IfOk result (λ demand. IsDemand built.now ask demand) }
{
    let mut search = Search::begin(alloc, built.graph().len())?;
    search.find_outputs(built, ask);
    search.spread(built);
    Ok(search.into_demand())
}
