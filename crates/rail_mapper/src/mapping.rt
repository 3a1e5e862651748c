//! From a machine's graph and its needed rails to a netlist.

ghost use Rattle.std.specs.Prelude.{◌≡◌, ◌+◌, [], IfOk, OnOk};
ghost use Rattle.aig_core.specs.Graphs.{first_conjunction};
ghost use Rattle.source_machine.specs.Fitting.{NamesFit};
ghost use Rattle.graph_build.specs.Built.{IsGraphOf};
ghost use Rattle.rail_demand.specs.Demands.{IsDemand};
ghost use Rattle.rail_mapper.specs.Makings.{InputsStand, CellsStand, LinesStand};
ghost use Rattle.rail_mapper.specs.Mapped.{IsMapped, HasFewCells};
ghost use Rattle.rail_mapper.specs.Naming.{NamesPorts};
ghost use Rattle.rail_mapper.specs.Stages.{IsPlan};

use crate::circuits::Circuit;
use crate::drafts::Draft;
use crate::gates::map_gates;
use crate::input_loops::{add_inputs, grow_inputs};
use crate::latch_loops::{begin_latches, finish_latches};
use crate::output_loops::add_outputs;
use crate::port_names::{name_inputs, name_outputs};
use crate::starts::start;
use aig_core::{nodes_have_places, nodes_have_values};
use cell_netlist::{Ask, Netlist, SoundNet, Version};
use graph_build::Built;
use pulse_ids::{Name, NoMemory};
use rail_demand::{Demand, demands_are_closed};
use source_machine::Machine;
use std::alloc::Global;

// A draft with all input rails, the constant and the trees of both.
fn begin_lines(alloc: Global, inputs: u32, circuit: &Circuit) -> Result<Draft, NoMemory>
    requires inputs { inputs ≡ circuit.now.built.now.graph.inputs }
    requires demand { IsDemand circuit.now.built.now circuit.now.ask circuit.now.demand.now }
    requires plan { IsPlan circuit.now.built.now circuit.now.demand.now circuit.now.ask }
    ensures { IfOk result (λ draft. InputsStand circuit.now.built.now circuit.now.demand.now circuit.now.ask circuit.now.version draft) }
{
    let _ = circuit.built.outputs(); // the proof learns that the graph is within its limits
    let mut draft = start(alloc, inputs, circuit)?;
    add_inputs(&mut draft, circuit)?;
    draft.add_constant(alloc)?;
    grow_inputs(alloc, &mut draft, circuit)?;
    Ok(draft)
}

// Adds all further cells. The number of the first conjunction is given.
fn add_cells(
    alloc: Global,
    draft: &mut Draft,
    circuit: &Circuit,
    first: u32,
) -> Result<(), NoMemory>
    requires first { first ≡ first_conjunction circuit.now.built.now.graph }
    requires plan { IsPlan circuit.now.built.now circuit.now.demand.now circuit.now.ask }
    requires inputs { InputsStand circuit.now.built.now circuit.now.demand.now circuit.now.ask circuit.now.version draft.old }
    ensures { OnOk result (CellsStand circuit.now.built.now circuit.now.demand.now circuit.now.ask circuit.now.version draft.new) }
{
    let _ = circuit.built.outputs(); // the proof learns that the graph is within its limits
    begin_latches(alloc, draft, circuit)?;
    map_gates(alloc, draft, circuit, first)?;
    finish_latches(draft, circuit)
}

// A netlist with all lines, as a draft.
fn add_lines(alloc: Global, inputs: u32, circuit: &Circuit) -> Result<Draft, NoMemory>
    requires inputs { inputs ≡ circuit.now.built.now.graph.inputs }
    requires demand { IsDemand circuit.now.built.now circuit.now.ask circuit.now.demand.now }
    ensures { IfOk result (λ draft. LinesStand circuit.now.built.now circuit.now.demand.now circuit.now.ask circuit.now.version draft) }
{
    nodes_have_places(); // a latch's node is that of one of the latches
    demands_are_closed(); // a rail is needed just where it is to be read
    let latches = circuit.built.latches();
    let mut draft = begin_lines(alloc, inputs, circuit)?;
    add_cells(alloc, &mut draft, circuit, 1 + inputs + latches)?;
    add_outputs(&mut draft, circuit)?;
    Ok(draft)
}

// The netlist with the names of its ports.
fn name_ports(
    net: Netlist,
    input_names: &[Option<Name>],
    output_names: &[Option<Name>],
) -> Result<Netlist, NoMemory>
    requires inputs { NamesFit net.inputs input_names.now }
    requires outputs { NamesFit net.outputs output_names.now }
    requires no_input { net.input_names ≡ [] }
    requires no_output { net.output_names ≡ [] }
    ensures { IfOk result (λ named. NamesPorts input_names.now output_names.now net named) }
{
    let mut named = net;
    name_inputs(&mut named, input_names)?;
    name_outputs(&mut named, output_names)?;
    Ok(named)
}

/// Makes the netlist of a machine from its graph, of which these rails are needed for the asked output rails.
///
/// The netlist is sound and lean, and of this version; in version two its state lines name exactly its backs, one for each latch of which
/// a rail is needed, in order, and these keep the states of the machine. It has exactly the asked output rails, and the machine's ports and names; and whatever its
/// inputs are, its output rails carry the bits of the machine's outputs, by its rail equations. Its lines are in one
/// order: a constant, where it is needed, with its trees; the trees of the needed rails of inputs; the back of each
/// latch of which a rail is needed, with its trees; for each conjunction its positive rail's LA and its negative rail's
/// FA, where they are needed, each with its tree; and the fronts. Readers take the leaves of a rail in the order of
/// gates, fronts and output rails. Wires are numbered by their drivers.
///
/// It takes time and memory in the number of nodes and uses. `NoMemory` is the one refusal.
pub fn map(
    alloc: Global,
    machine: &Machine,
    built: &Built,
    demand: &Demand,
    ask: Ask,
    version: Version,
) -> Result<SoundNet, NoMemory>
    requires graph { IsGraphOf machine.now built.now }
    requires demand { IsDemand built.now ask demand.now }
    ensures mapped { IfOk result (λ net. IsMapped machine.now built.now demand.now ask version net) }
    ensures few { IfOk result (λ net. HasFewCells machine.now net) }
{
    nodes_have_values(); // each node has the bit of what it stands for
    nodes_have_places(); // each node's number tells what it is
    demands_are_closed(); // each needed rail is of one of the nodes
    let raw = machine.raw();
    let circuit = Circuit {
        built,
        demand,
        ask,
        version,
    };
    let draft = add_lines(alloc, raw.inputs.len() as u32, &circuit)?;
    let net = name_ports(
        draft.into_net(),
        raw.input_names.as_slice(),
        raw.output_names.as_slice(),
    )?;
    match SoundNet::adopt(alloc, net) {
        Ok(sound) => Ok(sound),
        Err(_) => Err(NoMemory),
    }
}
