//! The draft to begin with, which has no line and of whose rails none is read.

ghost use Rattle.std.specs.Prelude.{◌≡◌, replicate, IfOk};
ghost use Rattle.aig_core.specs.Graphs.{count_of};
ghost use Rattle.rail_demand.specs.Demands.{nodes_in};
ghost use Rattle.rail_mapper.specs.InputStages.{InputsAt};
ghost use Rattle.rail_mapper.specs.Starts.{first_draft};

use crate::circuits::Circuit;
use crate::counting::count_uses;
use crate::drafts::Draft;
use crate::pending::Pending;
use crate::shelves::Shelves;
use aig_core::nodes_have_values;
use cell_netlist::{Netlist, Version};
use pulse_ids::NoMemory;
use std::alloc::Global;

// So many zeros.
#[tactic(auto, using(crate::proofs::ShelfLemmas::replicate_last))]
fn zeros(alloc: Global, count: u32) -> Result<Vec<u32>, NoMemory>
    ensures { IfOk result (λ list. list.items ≡ replicate count 0) }
{
    let mut list = Vec::with_capacity(alloc, count as usize)?;
    for _made in 0..count {
        list.push(0)?;
    }
    Ok(list)
}

/// A draft of this version, of these numbers of ports and of rails, with no line and no read.
fn begin(
    alloc: Global,
    version: Version,
    inputs: u32,
    outputs: u32,
    rails: u32,
) -> Result<Draft, NoMemory>
    ensures { IfOk result (λ draft. draft ≡ first_draft version inputs outputs rails) }
{
    let counts = zeros(alloc, rails)?;
    let stock = Shelves::empty(alloc, rails)?;
    Ok(Draft {
        net: Netlist::versioned(alloc, version, inputs, outputs),
        counts,
        stock,
        pending: Pending::none(alloc),
    })
}

/// The draft to begin with, in which all reads of rails are counted. The number of the graph's inputs is given.
pub(crate) fn start(alloc: Global, inputs: u32, circuit: &Circuit) -> Result<Draft, NoMemory>
    requires inputs { inputs ≡ circuit.now.built.now.graph.inputs }
    requires nodes { nodes_in circuit.now.demand.now ≡ count_of circuit.now.built.now.graph }
    ensures { IfOk result (λ draft. InputsAt circuit.now.built.now circuit.now.demand.now circuit.now.ask circuit.now.version 0 draft) }
{
    nodes_have_values(); // each conjunction is one of the graph's pairs
    let rails = 2 * circuit.built.graph().len();
    let mut draft = begin(
        alloc,
        circuit.version,
        inputs,
        circuit.built.outputs(),
        rails,
    )?;
    count_uses(&mut draft, circuit);
    Ok(draft)
}
