//! The lines of a simulation's text.

ghost use Rattle.std.specs.Prelude.{◌∷◌, ◌++◌, [], decimal, map};
ghost use Rattle.std.specs.List.{flat_map};
ghost use Rattle.byte_ports.specs.Writing.{WritesText};
ghost use Rattle.cell_netlist.specs.Text.{line_of};
ghost use Rattle.schedule_replay.specs.Logs.{wire_number};
ghost use Rattle.pulse_traces.specs.SimulationTexts.{deliver_line, trace_text};
ghost use Rattle.pulse_traces.specs.Pieces.{spaced_wire, cycle_of_parts};

use byte_ports::{Failed, Sink, write_all};
use pulse_ids::{Ident, WireId};
use text_pieces::{Piece, write_pieces};

/// Writes a space and the number of a wire.
fn write_wire<K: Sink>(out: &mut K, wire: WireId) -> Result<(), Failed>
    ensures { WritesText (K.taken out.old) (K.taken out.new) (K.faults out.old) (K.faults out.new) result (spaced_wire wire) }
{
    write_pieces(
        &[Piece::Text(b" "), Piece::Number(wire.number() as u64)],
        out,
    )
}

/// Writes the numbers of wires, each behind a space.
fn write_wires<K: Sink>(out: &mut K, wires: &[WireId]) -> Result<(), Failed>
    ensures { WritesText (K.taken out.old) (K.taken out.new) (K.faults out.old) (K.faults out.new) result (flat_map spaced_wire wires.now) }
{
    for wire in wires {
        write_wire(out, *wire)?;
    }
    Ok(())
}

/// Writes the line of a phase's deliveries.
fn write_deliveries<K: Sink>(out: &mut K, wires: &[WireId]) -> Result<(), Failed>
    ensures { WritesText (K.taken out.old) (K.taken out.new) (K.faults out.old) (K.faults out.new) result (deliver_line (map wire_number wires.now)) }
{
    write_all(out, b"deliver")?;
    write_wires(out, wires)?;
    write_all(out, b"\n")
}

/// Writes the lines of a cycle's deliveries.
fn write_both<K: Sink>(out: &mut K, excite: &[WireId], relax: &[WireId]) -> Result<(), Failed>
    ensures { WritesText (K.taken out.old) (K.taken out.new) (K.faults out.old) (K.faults out.new) result
        (deliver_line (map wire_number excite.now) ++ deliver_line (map wire_number relax.now)) }
{
    write_deliveries(out, excite)?;
    write_deliveries(out, relax)
}

/// Writes the lines of a cycle's deliveries, where they are asked for.
fn write_trace<K: Sink>(
    out: &mut K,
    trace: bool,
    excite: &[WireId],
    relax: &[WireId],
) -> Result<(), Failed>
    ensures { WritesText (K.taken out.old) (K.taken out.new) (K.faults out.old) (K.faults out.new) result
        (trace_text trace (map wire_number excite.now) (map wire_number relax.now)) }
{
    if trace {
        write_both(out, excite, relax)
    } else {
        Ok(())
    }
}

/// Writes the line of a cycle's pulses.
fn write_pulses<'a, K: Sink>(
    out: &mut K,
    number: u32,
    excite: &'a [u8],
    relax: &'a [u8],
) -> Result<(), Failed>
    ensures { WritesText (K.taken out.old) (K.taken out.new) (K.faults out.old) (K.faults out.new) result
        (line_of (decimal number ∷ excite.now ∷ relax.now ∷ [])) }
{
    let pieces = [
        Piece::Number(number as u64),
        Piece::Text(b" "),
        Piece::Text(excite),
        Piece::Text(b" "),
        Piece::Text(relax),
        Piece::Text(b"\n"),
    ];
    write_pieces(&pieces, out)
}

/// What the text of a cycle tells of a phase: the wires that it delivered, and a character for each output rail.
#[derive(Clone, Copy, Debug)]
pub(crate) struct PhaseParts<'a> {
    pub(crate) wires: &'a [WireId],
    pub(crate) digits: &'a [u8],
}

/// Writes the text of a cycle.
pub(crate) fn write_cycle<K: Sink>(
    out: &mut K,
    trace: bool,
    number: u32,
    excite: PhaseParts<'_>,
    relax: PhaseParts<'_>,
) -> Result<(), Failed>
    ensures { WritesText (K.taken out.old) (K.taken out.new) (K.faults out.old) (K.faults out.new) result
        (cycle_of_parts trace number (map wire_number excite.entry.wires.now) (map wire_number relax.entry.wires.now) excite.entry.digits.now relax.entry.digits.now) }
{
    write_trace(out, trace, excite.wires, relax.wires)?;
    write_pulses(out, number, excite.digits, relax.digits)
}
