//! The opening of a phase: the pulses on the input rails, and the phase clock.

ghost use Rattle.std.specs.Prelude.{◌≡◌, ◌<◌, ◌++◌, ◌∷◌, [], Some, true, false, if◌then◌else◌, map, replicate, length, slice_get, slice_set};
ghost use Rattle.pulse_ids.specs.Lists.{bit_at};
ghost use Rattle.cell_netlist.specs.declared.kinds.CellState.{CellState};
ghost use Rattle.cell_netlist.specs.declared.lines.Cell.{Cell};
ghost use Rattle.cell_netlist.specs.Netlists.{used, wire_of};
ghost use Rattle.cell_netlist.specs.World.{has_sign, pulses_in, rail_pulses, clocked, clock_pulses, cleared};
ghost use Rattle.pulse_world.specs.PackedStates.{IsDrocAt, is_droc};
ghost use Rattle.pulse_world.specs.PendingQueues.{HasRoomFor};
ghost use Rattle.pulse_world.specs.Reacting.{wires_of};

use crate::pending::PendingQueue;
use crate::rails::RailCounts;
use crate::reacting::Emitted;
use crate::states::CellStates;
use cell_netlist::{Cell, Netlist, Phase, Rail};
use pulse_ids::{CellId, Ident, RailId, Row, Sign, WireId};

/// Opens a phase: puts the pulses of the vector on the input rails, reads all DROCs by the phase clock and sets all
/// counts to 0.
#[inline(always)]
pub(crate) fn open_phase(
    phase: Phase,
    vector: &[bool],
    lines: &Netlist,
    cell_states: &mut CellStates<'_>,
    pending: &mut PendingQueue,
    counted: &mut RailCounts,
)
    requires { HasRoomFor pending.old (rail_pulses phase vector.now lines.now.input_rails ++ clock_pulses cell_states.old.cells cell_states.old.states) }
    ensures queue { pending.new ≡ record pending.old {
      wires = pending.old.wires
          ++ (rail_pulses phase vector.now lines.now.input_rails ++ clock_pulses cell_states.old.cells cell_states.old.states);
    } }
    ensures cleared { cell_states.new ≡ record cell_states.old { states = map cleared cell_states.old.states } }
    ensures counted { counted.new ≡ replicate (length counted.old) 0 }
{
    pulse_rails(phase, vector, lines.input_rails(), pending);
    clock_cells(cell_states, pending);
    counted.clear();
}

// Puts the pulses of a vector on the input rails, in the order of the rails.
#[inline(always)]
fn pulse_rails(phase: Phase, vector: &[bool], rails: &Row<RailId, Rail>, pending: &mut PendingQueue)
    requires { HasRoomFor pending.old (rail_pulses phase vector.now rails.now) }
    ensures { pending.new ≡ record pending.old { wires = pending.old.wires ++ rail_pulses phase vector.now rails.now } }
{
    for number in 0..rails.len() {
        let rail = *rails.get(RailId::new(number));
        append_if_used(given(phase, vector, rail), pending);
    }
}

// The wire of the rail, where the vector pulses on it in the phase.
#[inline(always)]
fn given(phase: Phase, vector: &[bool], rail: Rail) -> Option<WireId>
    ensures { used result ≡ (if pulses_in phase (has_sign (bit_at vector.now rail.port) rail.sign) then wire_of rail ∷ [] else []) }
{
    if pulses(phase, vector, rail) {
        Some(rail.wire)
    } else {
        None
    }
}

// Puts the wire of an output that may be unused at the end of the queue.
#[inline(always)]
fn append_if_used(output: Option<WireId>, pending: &mut PendingQueue)
    requires { HasRoomFor pending.old (used output) }
    ensures { pending.new ≡ record pending.old { wires = pending.old.wires ++ used output } }
{
    if let Some(wire) = output {
        pending.append(wire);
    }
}

/// Puts the wires on which a cell emitted at the end of the queue, in order.
#[inline(always)]
pub(crate) fn append_emitted(emitted: Emitted, pending: &mut PendingQueue)
    requires { HasRoomFor pending.old (wires_of emitted) }
    ensures { pending.new ≡ record pending.old { wires = pending.old.wires ++ wires_of emitted } }
{
    match emitted {
        Emitted::Nothing => {}
        Emitted::One(wire) => pending.append(wire),
        Emitted::Two(first, later) => {
            pending.append(first);
            pending.append(later);
        }
    }
}

// Whether the vector pulses on the rail in the phase.
#[inline(always)]
fn pulses(phase: Phase, vector: &[bool], rail: Rail) -> bool
    ensures { result ≡ pulses_in phase (has_sign (bit_at vector.now rail.port) rail.sign) }
{
    let bit = vector.get(rail.port as usize).copied().unwrap_or(false);
    let value = bit == (rail.sign == Sign::Pos);
    value == (phase == Phase::Excite)
}

// Reads all DROCs by the phase clock, in the order of the cells: each emits by its bit, which becomes 0. No other cell
// is visited.
#[inline(always)]
fn clock_cells(cell_states: &mut CellStates<'_>, pending: &mut PendingQueue)
    requires { HasRoomFor pending.old (clock_pulses cell_states.old.cells cell_states.old.states) }
    ensures emitted { pending.new ≡ record pending.old { wires = pending.old.wires ++ clock_pulses cell_states.old.cells cell_states.old.states } }
    ensures cleared { cell_states.new ≡ record cell_states.old { states = map cleared cell_states.old.states } }
{
    for place in 0..cell_states.drocs() {
        let id = cell_states.droc(place);
        let output = clock_at(cell_states, id);
        append_if_used(output, pending);
    }
}

// Reads a DROC by the phase clock, and answers the wire on which it emits. Its bit becomes 0.
#[inline(always)]
fn clock_at(cell_states: &mut CellStates<'_>, id: CellId) -> Option<WireId>
    requires { IsDrocAt cell_states.old id.number }
    ensures { (cell : Cell) × (before : CellState) × (slice_get cell_states.old.cells id.number ≡ Some cell)
        × (slice_get cell_states.old.states id.number ≡ Some before) × (used result ≡ clocked cell before.bit)
        × (cell_states.new ≡ record cell_states.old { states = slice_set cell_states.old.states id.number (cleared before) }) }
{
    if cell_states.take_bit(id) {
        output_of_one(cell_states.cell(id))
    } else {
        output_of_zero(cell_states.cell(id))
    }
}

// The wire on which the phase clock makes a DROC emit where its bit is 1.
#[inline(always)]
fn output_of_one(cell: Cell) -> Option<WireId>
    requires { is_droc cell ≡ true }
    ensures { used result ≡ clocked cell true }
{
    match cell {
        Cell::Droc { q, .. } => q,
        _ => unreachable!(),
    }
}

// The same where its bit is 0.
#[inline(always)]
fn output_of_zero(cell: Cell) -> Option<WireId>
    requires { is_droc cell ≡ true }
    ensures { used result ≡ clocked cell false }
{
    match cell {
        Cell::Droc { n, .. } => n,
        _ => unreachable!(),
    }
}
