//! What a cell does at a pulse on one of its ports.

ghost use Rattle.std.specs.Prelude.{◌≡◌, Some, if◌then◌else◌};
ghost use Rattle.cell_netlist.specs.declared.kinds.Held.TheVariants.{Rest};
ghost use Rattle.cell_netlist.specs.declared.kinds.Port.{Port};
ghost use Rattle.cell_netlist.specs.declared.lines.Reader.TheVariants.{From};
ghost use Rattle.cell_netlist.specs.Tables.{arrival};
ghost use Rattle.pulse_world.specs.PackedStates.{held_of, other_port};
ghost use Rattle.pulse_world.specs.Reacting.{IsGateAt, port_of, target_at, Reacts, HasReacted};

use crate::states::CellStates;
use cell_netlist::{Cell, Gate, Port, Reader};
use pulse_ids::{CellId, RailId, WireId};

/// The wires on which a cell emits, in order.
#[derive(Clone, Copy, Debug, PartialEq, Eq)]
pub(crate) enum Emitted {
    Nothing,
    One(WireId),
    Two(WireId, WireId),
}

/// Where a wire is read: at a cell or at an output rail.
#[derive(Clone, Copy, Debug, PartialEq, Eq)]
pub(crate) enum Target {
    Cell(CellId),
    Rail(RailId),
}

/// The cell or the output rail of a reader.
#[inline(always)]
pub(crate) fn target_of(reader: Reader) -> Target
    ensures { result ≡ target_at reader }
{
    match reader {
        Reader::A(id) | Reader::B(id) | Reader::From(id) | Reader::Feed(id) => Target::Cell(id),
        Reader::Output(id) => Target::Rail(id),
    }
}

/// Lets a cell react to a pulse on its port, for which the cell's table has an entry, and answers what it emits. A
/// splitter keeps nothing, and the feed of a DROC sets its bit: neither asks for what the cell kept.
#[inline(always)]
pub(crate) fn react_at(cell_states: &mut CellStates<'_>, id: CellId, reader: Reader) -> Emitted
    requires { Reacts cell_states.old id.number reader }
    ensures { HasReacted cell_states.old cell_states.new id.number reader result }
{
    match reader {
        Reader::A(_) => react_gate_at(cell_states, id, Port::A),
        Reader::B(_) => react_gate_at(cell_states, id, Port::B),
        Reader::From(_) => split_at(cell_states, id),
        Reader::Feed(_) => {
            cell_states.set_bit(id, true);
            Emitted::Nothing
        }
        Reader::Output(_) => unreachable!(),
    }
}

// Emits on both outputs of a splitter.
#[inline(always)]
fn split_at(cell_states: &CellStates<'_>, id: CellId) -> Emitted
    requires { Reacts cell_states.now id.number (From id) }
    ensures { HasReacted cell_states.now cell_states.now id.number (From id) result }
{
    let Cell::Split { left, right, .. } = cell_states.cell(id) else {
        unreachable!()
    };
    Emitted::Two(left, right)
}

// Lets an LA or FA react to a pulse on a port.
#[inline(always)]
fn react_gate_at(cell_states: &mut CellStates<'_>, id: CellId, port: Port) -> Emitted
    requires { Reacts cell_states.old id.number (port_of port id) }
    ensures { HasReacted cell_states.old cell_states.new id.number (port_of port id) result }
{
    match cell_states.cell(id) {
        Cell::La { out, .. } => pulse_gate(cell_states, id, Gate::La, port, out),
        Cell::Fa { out, .. } => pulse_gate(cell_states, id, Gate::Fa, port, out),
        Cell::Split { .. } | Cell::Droc { .. } => unreachable!(),
    }
}

// The same by which gate it is, and its output.
#[inline(always)]
fn pulse_gate(
    cell_states: &mut CellStates<'_>,
    id: CellId,
    gate: Gate,
    port: Port,
    out: WireId,
) -> Emitted
    requires gate { IsGateAt cell_states.old id.number gate out }
    requires reacts { Reacts cell_states.old id.number (port_of port id) }
    ensures { HasReacted cell_states.old cell_states.new id.number (port_of port id) result }
{
    let met = cell_states.pulse(id, port);
    if emits(gate, met) {
        Emitted::One(out)
    } else {
        Emitted::Nothing
    }
}

// Whether a gate emits at a pulse on a port, by whether it held one of the other port.
#[inline(always)]
fn emits(gate: Gate, met: bool) -> bool
    ensures { (port : Port) → arrival gate (if met then held_of (other_port port) else Rest) port ≡ Some (if met then Rest else held_of port, result) }
{
    met == (gate == Gate::La)
}
