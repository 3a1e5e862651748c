//! All input rails and all their trees.

ghost use Rattle.std.specs.Prelude.{◌≡◌, ◌<◌, ◌+◌, ◌*◌, [], OnOk, IfOk};
ghost use Rattle.rail_mapper.specs.InputStages.{InputsAt, TreesAt};
ghost use Rattle.rail_mapper.specs.Lines.{AddsLines};
ghost use Rattle.rail_mapper.specs.Stages.{IsStage};

use crate::circuits::Circuit;
use crate::drafts::Draft;
use crate::rails::rail_of;
use aig_core::nodes_have_places;
use pulse_ids::{NoMemory, Sign};
use std::alloc::Global;

// Adds the rails of an input port that are to be read, the positive before the negative one.
fn add_port(draft: &mut Draft, circuit: &Circuit, port: u32) -> Result<(), NoMemory>
    requires port { port < circuit.now.built.now.graph.inputs }
    requires inputs { InputsAt circuit.now.built.now circuit.now.demand.now circuit.now.ask circuit.now.version (2 * port) draft.old }
    ensures { OnOk result (InputsAt circuit.now.built.now circuit.now.demand.now circuit.now.ask circuit.now.version (2 * (port + 1)) draft.new) }
{
    nodes_have_places(); // the node behind the constant and the ports before this one is this input
    let _ = circuit.built.graph(); // the proof learns that there are few inputs
    draft.add_input(port, Sign::Pos)?;
    draft.add_input(port, Sign::Neg)
}

/// Adds all input rails that are to be read, by rising ports.
pub(crate) fn add_inputs(draft: &mut Draft, circuit: &Circuit) -> Result<(), NoMemory>
    requires { InputsAt circuit.now.built.now circuit.now.demand.now circuit.now.ask circuit.now.version 0 draft.old }
    ensures { OnOk result (InputsAt circuit.now.built.now circuit.now.demand.now circuit.now.ask circuit.now.version (2 * circuit.now.built.now.graph.inputs) draft.new) }
{
    for port in 0..draft.inputs() {
        add_port(draft, circuit, port)?;
    }
    Ok(())
}

// Spreads the rails of an input port that are to be read, the first from a wire, and answers the wire of the next one.
fn grow_port(
    alloc: Global,
    draft: &mut Draft,
    circuit: &Circuit,
    port: u32,
    wire: u32,
) -> Result<u32, NoMemory>
    requires port { port < circuit.now.built.now.graph.inputs }
    requires trees { TreesAt circuit.now.built.now circuit.now.demand.now circuit.now.ask (2 * port) wire draft.old }
    ensures trees { IfOk result (λ next. TreesAt circuit.now.built.now circuit.now.demand.now circuit.now.ask (2 * (port + 1)) next draft.new) }
    ensures lines { OnOk result (AddsLines [] [] draft.old draft.new) }
{
    nodes_have_places(); // the node behind the constant and the ports before this one is this input
    let _ = circuit.built.graph(); // the proof learns that there are few inputs
    let next = draft.grow_input(alloc, rail_of(1 + port, Sign::Pos), wire)?;
    draft.grow_input(alloc, rail_of(1 + port, Sign::Neg), next)
}

/// Spreads all rails of inputs that are to be read, in their order.
pub(crate) fn grow_inputs(
    alloc: Global,
    draft: &mut Draft,
    circuit: &Circuit,
) -> Result<(), NoMemory>
    requires trees { TreesAt circuit.now.built.now circuit.now.demand.now circuit.now.ask 0 0 draft.old }
    requires inputs { draft.old.net.inputs ≡ circuit.now.built.now.graph.inputs }
    ensures stage { OnOk result (IsStage circuit.now.built.now circuit.now.demand.now circuit.now.ask (2 * (1 + circuit.now.built.now.graph.inputs)) draft.new) }
    ensures none { OnOk result (draft.new.pending ≡ []) }
    ensures lines { OnOk result (AddsLines [] [] draft.old draft.new) }
{
    let mut wire = 0;
    for port in 0..draft.inputs() {
        wire = grow_port(alloc, draft, circuit, port, wire)?;
    }
    Ok(())
}
