//! The text of a report, line by line, to any sink, without memory.

ghost use Rattle.std.specs.Prelude.{◌≡◌, ◌<◌, IsFalse, decimal, length};
ghost use Rattle.std.specs.List.{flat_map};
ghost use Rattle.byte_ports.specs.Writing.{WritesText};
ghost use Rattle.junction_report.specs.Texts.{parts_of, line_text, sizes_text, path_line, rails_text, report_text, spaced};

use crate::reports::Report;
use byte_ports::{Failed, Sink, write_all};
use pulse_ids::{CellId, Ident};
use text_pieces::{Piece, write_pieces};

/// A line of a word and a number.
#[derive(Clone, Copy, Debug)]
pub(crate) struct Line<'a> {
    pub(crate) word: &'a [u8],
    pub(crate) number: u32,
}

fn numbered(word: &[u8], number: u32) -> Line<'_>
    ensures { parts_of result ≡ (word.now, number) }
{
    Line { word, number }
}

/// One line: the word, a space, the number and LF.
fn write_line<K: Sink>(out: &mut K, line: Line<'_>) -> Result<(), Failed>
    ensures written { WritesText (K.taken out.old) (K.taken out.new) (K.faults out.old) (K.faults out.new) result (line_text line.entry) }
    ensures unflushed { IsFalse (K.flushed out.new) }
{
    let pieces = [
        Piece::Text(line.word),
        Piece::Text(b" "),
        Piece::Number(line.number as u64),
        Piece::Text(b"\n"),
    ];
    write_pieces(&pieces, out)
}

fn write_lines<K: Sink>(out: &mut K, lines: &[Line<'_>]) -> Result<(), Failed>
    ensures written { WritesText (K.taken out.old) (K.taken out.new) (K.faults out.old) (K.faults out.new) result (flat_map line_text lines.entry.now) }
    ensures unflushed { 0 < length lines.entry.now → IsFalse (K.flushed out.new) }
{
    for line in lines {
        write_line(out, *line)?;
    }
    Ok(())
}

/// A space and the number of a cell.
fn write_cell<K: Sink>(out: &mut K, cell: CellId) -> Result<(), Failed>
    ensures written { WritesText (K.taken out.old) (K.taken out.new) (K.faults out.old) (K.faults out.new) result (spaced cell.number) }
    ensures unflushed { IsFalse (K.flushed out.new) }
{
    write_pieces(
        &[Piece::Text(b" "), Piece::Number(cell.number() as u64)],
        out,
    )
}

fn write_cells<K: Sink>(out: &mut K, cells: &[CellId]) -> Result<(), Failed>
    ensures written { WritesText (K.taken out.old) (K.taken out.new) (K.faults out.old) (K.faults out.new) result (flat_map (λ cell. spaced cell.number) cells.now) }
    ensures unflushed { IsFalse (K.flushed out.old) → IsFalse (K.flushed out.new) }
{
    for cell in cells {
        write_cell(out, *cell)?;
    }
    Ok(())
}

/// The line of the path.
fn write_path<K: Sink>(report: &Report, out: &mut K) -> Result<(), Failed>
    ensures written { WritesText (K.taken out.old) (K.taken out.new) (K.faults out.old) (K.faults out.new) result (path_line report.now) }
    ensures unflushed { IsFalse (K.flushed out.new) }
{
    write_all(out, b"path")?;
    write_cells(out, report.path.cells())?;
    write_all(out, b"\n")
}

/// Writes the lines of a report from that of LA cells to that of the depth in cells. It takes no memory. The sink
/// isn't flushed.
///
/// Errors: `Failed` only where the sink's count of faults rose. Then a prefix of the lines was taken.
pub fn write_sizes<K: Sink>(report: &Report, out: &mut K) -> Result<(), Failed>
    ensures written { WritesText (K.taken out.old) (K.taken out.new) (K.faults out.old) (K.faults out.new) result (sizes_text report.now) }
    ensures unflushed { IsFalse (K.flushed out.new) }
{
    write_lines(
        out,
        &[
            numbered(b"la", report.la),
            numbered(b"fa", report.fa),
            numbered(b"split", report.split),
            numbered(b"droc0", report.droc0),
            numbered(b"droc1", report.droc1),
            numbered(b"junctions", report.junctions),
            numbered(b"logic", report.logic),
            numbered(b"cells", report.cells),
        ],
    )
}

/// Writes the text of a report: a line for each number, and one for the path. It takes no memory. Each word and each
/// space is a piece of its own, so a slow sink is best buffered. The sink isn't flushed.
///
/// Errors: `Failed` only where the sink's count of faults rose. Then a prefix of the text was taken.
pub fn write_report<K: Sink>(report: &Report, out: &mut K) -> Result<(), Failed>
    ensures written { WritesText (K.taken out.old) (K.taken out.new) (K.faults out.old) (K.faults out.new) result (report_text report.now) }
    ensures unflushed { IsFalse (K.flushed out.new) }
{
    write_rails(report, out)?;
    write_sizes(report, out)?;
    write_path(report, out)
}

fn write_rails<K: Sink>(report: &Report, out: &mut K) -> Result<(), Failed>
    ensures written { WritesText (K.taken out.old) (K.taken out.new) (K.faults out.old) (K.faults out.new) result (rails_text report.now) }
    ensures unflushed { IsFalse (K.flushed out.new) }
{
    write_lines(
        out,
        &[
            numbered(b"inputs", report.input_rails),
            numbered(b"outputs", report.output_rails),
        ],
    )
}
