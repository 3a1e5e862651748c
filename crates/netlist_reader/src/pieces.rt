//! Lines of a text that comes in pieces, each read as soon as it is whole.

ghost use Rattle.std.specs.Prelude.{◌≡◌, ◌≤◌, ◌<◌, ◌^◌, ◌+◌, ◌++◌, ℕ, List, Err, IfOk, IfErr, OnOk, false, take, length};
ghost use Rattle.word_scan.specs.Reading.{HasRead, text_read};
ghost use Rattle.word_scan.specs.Lines.{whole_lines};
ghost use Rattle.netlist_reader.specs.Building.{has_ended, line_read, start, OrMemory, StopsReading};
ghost use Rattle.netlist_reader.specs.Readings.{IsFine};

use crate::built::Built;
use crate::refusals::NetRefusal;
use std::alloc::Global;
use word_scan::Lines;

/// Takes the bytes of a piece up to its first LF, or all of them, and reads the line where it is whole: where it
/// lies, if all of it stands in the piece. It answers how many bytes it took.
fn take_line(
    alloc: Global,
    lines: &mut Lines,
    built: &mut Built,
    piece: &[u8],
) -> Result<usize, NetRefusal>
    requires fine { IsFine lines.old built.old }
    requires going { has_ended built.old ≡ false }
    requires few { built.old.lines < 2 ^ 27 }
    ensures fine { OnOk result (IsFine lines.new built.new) }
    ensures used { IfOk result (λ used. (used ≤ length piece.now) × (0 < length piece.now → 0 < used)) }
    ensures few { OnOk result (built.new.lines ≤ built.old.lines + 1) }
    ensures ok { IfOk result (λ used. (text : List ℕ) → HasRead line_read start text lines.old built.old
        → HasRead line_read start (text ++ take used piece.now) lines.new built.new) }
    ensures err { IfErr result (λ refusal. (text : List ℕ) → HasRead line_read start text lines.old built.old
        → OrMemory refusal (text_read line_read start (text ++ piece.now) ≡ Err refusal)) }
    ensures stops { IfErr result (λ refusal. (text : List ℕ) → HasRead line_read start text lines.old built.old
        → StopsReading (whole_lines (text ++ piece.now)) refusal built.new) }
{
    if let Some(line) = lines.take_whole(piece) {
        built.read(alloc, line)?;
        return Ok(line.len() + 1);
    }
    let taken = lines.take(piece)?;
    if taken.whole {
        built.read(alloc, lines.line())?;
    }
    Ok(taken.used)
}

/// Takes a piece up to the end of the text, and answers how many bytes it took.
pub(crate) fn take_piece(
    alloc: Global,
    lines: &mut Lines,
    built: &mut Built,
    piece: &[u8],
) -> Result<usize, NetRefusal>
    requires fine { IsFine lines.old built.old }
    requires few { built.old.lines + length piece.now ≤ 2 ^ 27 }
    ensures fine { OnOk result (IsFine lines.new built.new) }
    ensures used { IfOk result (λ used. used ≤ length piece.now) }
    ensures few { IfOk result (λ used. built.new.lines ≤ built.old.lines + used) }
    ensures all { IfOk result (λ used. has_ended built.new ≡ false → used ≡ length piece.now) }
    ensures ok { IfOk result (λ used. (text : List ℕ) → HasRead line_read start text lines.old built.old
        → HasRead line_read start (text ++ take used piece.now) lines.new built.new) }
    ensures err { IfErr result (λ refusal. (text : List ℕ) → HasRead line_read start text lines.old built.old
        → OrMemory refusal (text_read line_read start (text ++ piece.now) ≡ Err refusal)) }
    ensures stops { IfErr result (λ refusal. (text : List ℕ) → HasRead line_read start text lines.old built.old
        → StopsReading (whole_lines (text ++ piece.now)) refusal built.new) }
{
    let mut rest = piece;
    while !built.has_ended() && !rest.is_empty() {
        let used = take_line(alloc, lines, built, rest)?;
        rest = &rest[used..];
    }
    Ok(piece.len() - rest.len())
}
