//! The backs of all latches, before the conjunctions, and all fronts, after them.

ghost use Rattle.std.specs.Prelude.{◌≡◌, ◌≤◌, ◌<◌, ◌+◌, ◌^◌, ◌∷◌, [], replicate, length, OnOk};
ghost use Rattle.pulse_ids.specs.declared.literals.Sign.TheVariants.{Pos};
ghost use Rattle.cell_netlist.specs.declared.kinds.Role.TheVariants as roles;
ghost use Rattle.rail_mapper.specs.Drafts.{PlainDraft};
ghost use Rattle.rail_mapper.specs.Labels.{literal_number};
ghost use Rattle.rail_mapper.specs.LatchStages.{BacksAt, FrontsAt};
ghost use Rattle.rail_mapper.specs.Lines.{AddsLines};
ghost use Rattle.rail_mapper.specs.Stages.{IsPlan};

use crate::circuits::Circuit;
use crate::drafts::Draft;
use crate::rails::{literal_rail, rail_of};
use aig_core::nodes_have_places;
use pulse_ids::{Ident, NoMemory, NodeLit, Sign};
use std::alloc::Global;

/// Adds the back of a latch with its trees, where a rail of it is to be read.
fn begin_latch(
    alloc: Global,
    draft: &mut Draft,
    circuit: &Circuit,
    latch: u32,
) -> Result<(), NoMemory>
    requires latch { latch < circuit.now.built.now.graph.latches }
    requires plan { IsPlan circuit.now.built.now circuit.now.demand.now circuit.now.ask }
    requires backs { BacksAt circuit.now.built.now circuit.now.demand.now circuit.now.ask latch draft.old }
    ensures backs { OnOk result (BacksAt circuit.now.built.now circuit.now.demand.now circuit.now.ask (latch + 1) draft.new) }
    ensures lines { OnOk result ((first : PlainDraft) → AddsLines [] (replicate (length draft.old.pending) roles.Back) first draft.old
        → AddsLines [] (replicate (length draft.new.pending) roles.Back) first draft.new) }
{
    nodes_have_places(); // the node behind the inputs and the latches before this one is this latch
    let _ = circuit.built.graph().len(); // the proof learns how many nodes there are
    let node = circuit.built.graph().latch(latch).node().number();
    let init = circuit.built.init(latch);
    let (pos, neg) = (rail_of(node, Sign::Pos), rail_of(node, Sign::Neg));
    draft.begin_latch(alloc, latch, init, pos, neg)
}

/// Adds the backs of all latches of which a rail is to be read, in order, each with its trees.
pub(crate) fn begin_latches(
    alloc: Global,
    draft: &mut Draft,
    circuit: &Circuit,
) -> Result<(), NoMemory>
    requires plan { IsPlan circuit.now.built.now circuit.now.demand.now circuit.now.ask }
    requires backs { BacksAt circuit.now.built.now circuit.now.demand.now circuit.now.ask 0 draft.old }
    requires bare { draft.old.pending ≡ [] }
    ensures backs { OnOk result (BacksAt circuit.now.built.now circuit.now.demand.now circuit.now.ask circuit.now.built.now.graph.latches draft.new) }
    ensures lines { OnOk result (AddsLines [] (replicate (length draft.new.pending) roles.Back) draft.old draft.new) }
{
    for latch in 0..circuit.built.latches() {
        begin_latch(alloc, draft, circuit, latch)?;
    }
    Ok(())
}

// The rail that a front takes: the positive one of what its latch holds next.
fn taken_rail(next: NodeLit) -> u32
    requires { next.id.number < 2 ^ 30 }
    ensures { result ≡ literal_number next Pos }
{
    literal_rail(next, Sign::Pos)
}

/// Adds the front of the first latch that waits for one.
fn finish_latch(draft: &mut Draft, circuit: &Circuit) -> Result<(), NoMemory>
    requires fronts { FrontsAt circuit.now.built.now circuit.now.ask draft.old }
    requires some { 1 ≤ length draft.old.pending }
    ensures fronts { OnOk result (FrontsAt circuit.now.built.now circuit.now.ask draft.new) }
    ensures less { OnOk result (length draft.old.pending ≡ length draft.new.pending + 1) }
    ensures lines { OnOk result (AddsLines [] (roles.Front ∷ []) draft.old draft.new) }
{
    let _ = circuit.built.graph(); // the proof learns that the graph is within its limits
    let latch = draft.first_waiting();
    let rail = taken_rail(circuit.built.next(latch));
    let init = circuit.built.init(latch);
    draft.put_front(rail, init)
}

/// Adds the fronts of all latches that wait for one, in the order of their backs.
pub(crate) fn finish_latches(draft: &mut Draft, circuit: &Circuit) -> Result<(), NoMemory>
    requires { FrontsAt circuit.now.built.now circuit.now.ask draft.old }
    ensures fronts { OnOk result (FrontsAt circuit.now.built.now circuit.now.ask draft.new) }
    ensures none { OnOk result (draft.new.pending ≡ []) }
    ensures lines { OnOk result (AddsLines [] (replicate (length draft.old.pending) roles.Front) draft.old draft.new) }
{
    for _finished in 0..draft.waiting() {
        finish_latch(draft, circuit)?;
    }
    Ok(())
}
