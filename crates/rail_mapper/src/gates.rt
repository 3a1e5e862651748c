//! Gates for the rails of conjunctions.

ghost use Rattle.std.specs.Prelude.{◌≡◌, ◌≤◌, ◌<◌, ◌+◌, ◌*◌, ◌^◌, [], map, OnOk};
ghost use Rattle.aig_core.specs.Graphs.{count_of, first_conjunction};
ghost use Rattle.rail_mapper.specs.Cells.{needed_signs, gates_for};
ghost use Rattle.rail_mapper.specs.Labels.{rail_number, literal_number, rails_in};
ghost use Rattle.rail_mapper.specs.Lines.{AddsLines};
ghost use Rattle.rail_mapper.specs.Stages.{MapsRail, IsReady, IsPlan, IsStage};
ghost use Rattle.rail_mapper.specs.Tracks.{sign_gate};

use crate::circuits::Circuit;
use crate::drafts::Draft;
use crate::rails::{literal_rail, rail_of};
use aig_core::{Node, nodes_have_places};
use cell_netlist::Gate;
use graph_build::Built;
use pulse_ids::{Ident, NoMemory, NodeId, NodeLit, Sign};
use std::alloc::Global;

fn gate_of(sign: Sign) -> Gate
    ensures { result ≡ sign_gate sign }
{
    match sign {
        Sign::Pos => Gate::La,
        Sign::Neg => Gate::Fa,
    }
}

/// Makes a rail of a conjunction, where it is to be read.
fn map_rail(
    alloc: Global,
    draft: &mut Draft,
    built: &Built,
    node: NodeId,
    sign: Sign,
) -> Result<(), NoMemory>
    requires inside { node.number < count_of built.now.graph }
    requires ready { IsReady built.now node.number sign draft.old }
    ensures { OnOk result (MapsRail built.now (rail_number node.number sign) draft.old draft.new) }
{
    let rail = rail_of(node.number(), sign);
    if draft.readers(rail) == 0 {
        return Ok(());
    }
    match built.graph().node(node) {
        Node::And(low, high) => draft.add_gate(
            alloc,
            gate_of(sign),
            literal_rail(low, sign),
            literal_rail(high, sign),
            rail,
        ),
        Node::False | Node::Input(_) | Node::Latch(_) => Ok(()),
    }
}

/// Makes the rails of a conjunction that are to be read, the positive before the negative one.
fn map_node(
    alloc: Global,
    draft: &mut Draft,
    circuit: &Circuit,
    node: NodeId,
) -> Result<(), NoMemory>
    requires first { first_conjunction circuit.now.built.now.graph ≤ node.number }
    requires inside { node.number < count_of circuit.now.built.now.graph }
    requires plan { IsPlan circuit.now.built.now circuit.now.demand.now circuit.now.ask }
    requires stage { IsStage circuit.now.built.now circuit.now.demand.now circuit.now.ask (2 * node.number) draft.old }
    ensures stage { OnOk result (IsStage circuit.now.built.now circuit.now.demand.now circuit.now.ask (2 * (node.number + 1)) draft.new) }
    ensures lines { OnOk result (AddsLines (map sign_gate (needed_signs circuit.now.demand.now node.number)) [] draft.old draft.new) }
    ensures pending { OnOk result (draft.new.pending ≡ draft.old.pending) }
{
    nodes_have_places(); // the node is that of one of the conjunctions
    let _ = circuit.built.graph(); // the proof learns that the graph is tidy
    map_rail(alloc, draft, circuit.built, node, Sign::Pos)?;
    map_rail(alloc, draft, circuit.built, node, Sign::Neg)
}

/// Makes the rails of all conjunctions that are to be read, in the order of nodes. The first conjunction is given.
pub(crate) fn map_gates(
    alloc: Global,
    draft: &mut Draft,
    circuit: &Circuit,
    first: u32,
) -> Result<(), NoMemory>
    requires first { first ≡ first_conjunction circuit.now.built.now.graph }
    requires plan { IsPlan circuit.now.built.now circuit.now.demand.now circuit.now.ask }
    requires stage { IsStage circuit.now.built.now circuit.now.demand.now circuit.now.ask (2 * first) draft.old }
    ensures stage { OnOk result (IsStage circuit.now.built.now circuit.now.demand.now circuit.now.ask (rails_in circuit.now.built.now) draft.new) }
    ensures lines { OnOk result (AddsLines (gates_for circuit.now.built.now circuit.now.demand.now) [] draft.old draft.new) }
    ensures pending { OnOk result (draft.new.pending ≡ draft.old.pending) }
{
    for number in first..circuit.built.graph().len() {
        map_node(alloc, draft, circuit, NodeId::new(number))?;
    }
    Ok(())
}
