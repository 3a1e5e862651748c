//! The text of a timing, line by line, to any sink, without memory.

ghost use Rattle.std.specs.Prelude.{IsFalse, OnErr};
ghost use Rattle.std.specs.List.{flat_map};
ghost use Rattle.byte_ports.specs.Writing.{WritesText};
ghost use Rattle.timed_texts.specs.Texts.{bound_line, bound_text, path_line, spaced_cell, times_line, times_text, timing_text};

use crate::cycles::PhaseTimes;
use crate::timings::Timing;
use byte_ports::{Failed, Sink, write_all};
use pulse_ids::{CellId, Ident};
use text_pieces::{Piece, write_pieces};
use timed_world::Bound;

/// The line of a cycle: its number, and how long its phases take.
fn write_times<K: Sink>(number: usize, times: PhaseTimes, out: &mut K) -> Result<(), Failed>
    ensures written { WritesText (K.taken out.old) (K.taken out.new) (K.faults out.old) (K.faults out.new) result (times_line number times) }
    ensures unflushed { IsFalse (K.flushed out.new) }
{
    let pieces = [
        Piece::Number(number as u64),
        Piece::Text(b" "),
        Piece::Number(times.excite),
        Piece::Text(b" "),
        Piece::Number(times.relax),
        Piece::Text(b"\n"),
    ];
    write_pieces(&pieces, out)
}

/// The lines of all cycles.
fn write_cycles<K: Sink>(cycles: &[PhaseTimes], out: &mut K) -> Result<(), Failed>
    ensures written { WritesText (K.taken out.old) (K.taken out.new) (K.faults out.old) (K.faults out.new) result (times_text 0 cycles.now) }
    ensures unflushed { OnErr result (IsFalse (K.flushed out.new)) }
{
    for number in 0..cycles.len() {
        write_times(number, cycles[number], out)?;
    }
    Ok(())
}

/// The line of the bound.
fn write_time<K: Sink>(time: u64, out: &mut K) -> Result<(), Failed>
    ensures written { WritesText (K.taken out.old) (K.taken out.new) (K.faults out.old) (K.faults out.new) result (bound_line time) }
    ensures unflushed { IsFalse (K.flushed out.new) }
{
    let pieces = [
        Piece::Text(b"bound "),
        Piece::Number(time),
        Piece::Text(b"\n"),
    ];
    write_pieces(&pieces, out)
}

/// A space and the number of a cell.
fn write_cell<K: Sink>(cell: CellId, out: &mut K) -> Result<(), Failed>
    ensures written { WritesText (K.taken out.old) (K.taken out.new) (K.faults out.old) (K.faults out.new) result (spaced_cell cell) }
    ensures unflushed { IsFalse (K.flushed out.new) }
{
    write_pieces(
        &[Piece::Text(b" "), Piece::Number(cell.number() as u64)],
        out,
    )
}

/// The numbers of the cells of a path, each behind a space.
fn write_cells<K: Sink>(bound: &Bound, out: &mut K) -> Result<(), Failed>
    ensures written { WritesText (K.taken out.old) (K.taken out.new) (K.faults out.old) (K.faults out.new) result (flat_map spaced_cell bound.now.path) }
    ensures unflushed { IsFalse (K.flushed out.old) → IsFalse (K.flushed out.new) }
{
    for place in 0..bound.len() {
        write_cell(bound.cell(place), out)?;
    }
    Ok(())
}

/// The line of the path.
fn write_path<K: Sink>(bound: &Bound, out: &mut K) -> Result<(), Failed>
    ensures written { WritesText (K.taken out.old) (K.taken out.new) (K.faults out.old) (K.faults out.new) result (path_line bound.now.path) }
    ensures unflushed { IsFalse (K.flushed out.new) }
{
    write_all(out, b"path")?;
    write_cells(bound, out)?;
    write_all(out, b"\n")
}

/// The lines of the bound and of its path.
fn write_bound<K: Sink>(bound: &Bound, out: &mut K) -> Result<(), Failed>
    ensures written { WritesText (K.taken out.old) (K.taken out.new) (K.faults out.old) (K.faults out.new) result (bound_text bound.now) }
    ensures unflushed { IsFalse (K.flushed out.new) }
{
    write_time(bound.time(), out)?;
    write_path(bound, out)
}

/// Writes the text of a timing: a line for each cycle with its number, from 0, and how long excite and relax take; then
/// `bound` and the bound, and `path` and the numbers of the cells of its path. It takes no memory. Each word and each
/// space is a piece of its own, so a slow sink is best buffered. The sink isn't flushed.
///
/// Errors: `Failed` only where the sink's count of faults rose. Then a prefix of the text was taken.
pub fn write_timing<K: Sink>(timing: &Timing, out: &mut K) -> Result<(), Failed>
    ensures written { WritesText (K.taken out.old) (K.taken out.new) (K.faults out.old) (K.faults out.new) result (timing_text timing.now) }
    ensures unflushed { IsFalse (K.flushed out.new) }
{
    write_cycles(timing.cycles(), out)?;
    write_bound(timing.bound(), out)
}
