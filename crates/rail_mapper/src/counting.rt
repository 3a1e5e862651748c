//! How many readers each rail has, which is counted before any line is made.

ghost use Rattle.std.specs.Prelude.{◌≡◌, ◌≤◌, ◌<◌, ◌+◌, ◌*◌, ◌-◌, ◌^◌, ◌∷◌, [], length, map};
ghost use Rattle.aig_core.specs.Graphs.{count_of};
ghost use Rattle.cell_netlist.specs.Asked.{signs_of};
ghost use Rattle.rail_demand.specs.Demands.{nodes_in};
ghost use Rattle.rail_mapper.specs.Counts.{with_reads};
ghost use Rattle.rail_mapper.specs.Drafts.{readers_of, total};
ghost use Rattle.rail_mapper.specs.Labels.{rail_number, literal_number, rails_in};
ghost use Rattle.rail_mapper.specs.Plans.{rail_uses, gate_uses, latch_uses, front_uses, output_uses, uses};

use crate::circuits::Circuit;
use crate::drafts::Draft;
use crate::rails::literal_rail;
use aig_core::{Node, nodes_have_values};
use cell_netlist::Ask;
use pulse_ids::{Ident, NodeId, NodeLit, Sign};

/// Counts the two reads of a conjunction's rail, where it is needed.
fn count_gate(draft: &mut Draft, circuit: &Circuit, node: NodeId, sign: Sign)
    requires inside { node.number < count_of circuit.now.built.now.graph }
    requires nodes { nodes_in circuit.now.demand.now ≡ count_of circuit.now.built.now.graph }
    requires size { length draft.old.counts ≡ rails_in circuit.now.built.now }
    requires few { total draft.old.counts + 2 < 2 ^ 32 }
    ensures { draft.new ≡ with_reads draft.old (rail_uses circuit.now.built.now circuit.now.demand.now (rail_number node.number sign)) }
{
    nodes_have_values(); // each conjunction is one of the graph's pairs
    if !circuit.demand.needs(node, sign) {
        return;
    }
    match circuit.built.graph().node(node) {
        Node::And(low, high) => {
            draft.count_read(literal_rail(low, sign));
            draft.count_read(literal_rail(high, sign));
        }
        Node::False | Node::Input(_) | Node::Latch(_) => {}
    }
}

/// Counts the reads of all needed rails of conjunctions.
fn count_gates(draft: &mut Draft, circuit: &Circuit)
    requires nodes { nodes_in circuit.now.demand.now ≡ count_of circuit.now.built.now.graph }
    requires size { length draft.old.counts ≡ rails_in circuit.now.built.now }
    requires few { total draft.old.counts < 2 ^ 24 }
    ensures counted { draft.new ≡ with_reads draft.old (gate_uses circuit.now.built.now circuit.now.demand.now 0) }
    ensures few { total draft.new.counts ≤ total draft.old.counts + 2 ^ 21 }
{
    for number in 0..circuit.built.graph().len() {
        let node = NodeId::new(number);
        count_gate(draft, circuit, node, Sign::Pos);
        count_gate(draft, circuit, node, Sign::Neg);
    }
}

/// Counts the read of a latch's front, where a rail of the latch is needed.
fn count_front(draft: &mut Draft, circuit: &Circuit, latch: u32)
    requires inside { latch < length circuit.now.built.now.nexts }
    requires nodes { nodes_in circuit.now.demand.now ≡ count_of circuit.now.built.now.graph }
    requires size { length draft.old.counts ≡ rails_in circuit.now.built.now }
    requires few { total draft.old.counts + 2 < 2 ^ 32 }
    ensures { draft.new ≡ with_reads draft.old (latch_uses circuit.now.built.now circuit.now.demand.now latch) }
{
    let node = circuit.built.graph().latch(latch).node();
    if circuit.demand.needs(node, Sign::Pos) || circuit.demand.needs(node, Sign::Neg) {
        draft.count_read(literal_rail(circuit.built.next(latch), Sign::Pos));
    }
}

/// Counts the reads of all needed fronts.
fn count_fronts(draft: &mut Draft, circuit: &Circuit)
    requires nodes { nodes_in circuit.now.demand.now ≡ count_of circuit.now.built.now.graph }
    requires size { length draft.old.counts ≡ rails_in circuit.now.built.now }
    requires few { total draft.old.counts < 2 ^ 25 }
    ensures counted { draft.new ≡ with_reads draft.old (front_uses circuit.now.built.now circuit.now.demand.now) }
    ensures few { total draft.new.counts ≤ total draft.old.counts + 2 ^ 14 }
{
    for latch in 0..circuit.built.latches() {
        count_front(draft, circuit, latch);
    }
}

/// Counts the reads of an output port's rails.
fn count_output(draft: &mut Draft, literal: NodeLit, ask: Ask)
    requires inside { 2 * literal.id.number + 1 < length draft.old.counts }
    requires node { literal.id.number < 2 ^ 30 }
    requires few { total draft.old.counts + 2 < 2 ^ 32 }
    ensures { draft.new ≡ with_reads draft.old (map (literal_number literal) (signs_of ask)) }
{
    match ask {
        Ask::Pos => draft.count_read(literal_rail(literal, Sign::Pos)),
        Ask::Neg => draft.count_read(literal_rail(literal, Sign::Neg)),
        Ask::Both => {
            draft.count_read(literal_rail(literal, Sign::Pos));
            draft.count_read(literal_rail(literal, Sign::Neg));
        }
    }
}

/// Counts the reads of all asked output rails.
fn count_outputs(draft: &mut Draft, circuit: &Circuit)
    requires size { length draft.old.counts ≡ rails_in circuit.now.built.now }
    requires few { total draft.old.counts < 2 ^ 26 }
    ensures counted { draft.new ≡ with_reads draft.old (output_uses circuit.now.built.now circuit.now.ask) }
    ensures few { total draft.new.counts ≤ total draft.old.counts + 2 ^ 15 }
{
    for port in 0..circuit.built.outputs() {
        count_output(draft, circuit.built.output(port), circuit.ask);
    }
}

/// Counts all reads of rails.
pub(crate) fn count_uses(draft: &mut Draft, circuit: &Circuit)
    requires nodes { nodes_in circuit.now.demand.now ≡ count_of circuit.now.built.now.graph }
    requires size { length draft.old.counts ≡ rails_in circuit.now.built.now }
    requires few { total draft.old.counts ≡ 0 }
    ensures { draft.new ≡ with_reads draft.old (uses circuit.now.built.now circuit.now.demand.now circuit.now.ask) }
{
    count_gates(draft, circuit);
    count_fronts(draft, circuit);
    count_outputs(draft, circuit);
}
