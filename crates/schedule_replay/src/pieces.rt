//! Lines of a text that comes in pieces, each read as soon as it is whole.

ghost use Rattle.std.specs.Prelude.{◌≡◌, ◌≤◌, ◌<◌, ◌+◌, ◌^◌, ◌++◌, ℕ, List, Some, Err, false, IfOk, IfErr, OnOk, take, length};
ghost use Rattle.schedule_replay.specs.declared.vector_lines.Due.TheVariants as dues;
ghost use Rattle.schedule_replay.specs.VectorTexts.{limit, shown_by};
ghost use Rattle.schedule_replay.specs.Tables.{OrMemory};
ghost use Rattle.schedule_replay.specs.Readings.{HasReadLines, lines_so_far, IsFine};

use crate::refusals::VectorRefusal;
use crate::tables::Table;
use crate::vector_lines::Form;
use word_scan::Lines;

/// Takes the bytes of a piece up to the end of the line that has begun, which it reads, or all of them. It answers how
/// many it took.
fn take_cut(
    lines: &mut Lines,
    form: Form,
    table: &mut Table,
    piece: &[u8],
) -> Result<usize, VectorRefusal>
    requires fine { IsFine form lines.old table.old }
    requires live { table.old.due ≡ dues.Nothing → ⊥ }
    requires some { 0 < length piece.now }
    requires room { table.old.place + length piece.now ≤ 2 ^ 27 }
    ensures fine { OnOk result (IsFine form lines.new table.new) }
    ensures used { IfOk result (λ used. (used ≤ length piece.now) × (0 < used) × (table.new.place ≤ table.old.place + used)) }
    ensures ok { IfOk result (λ used. (text : List ℕ) → HasReadLines form text lines.old table.old
        → HasReadLines form (text ++ take used piece.now) lines.new table.new) }
    ensures err { IfErr result (λ refusal. OrMemory refusal ((text : List ℕ) → HasReadLines form text lines.old table.old
        → lines_so_far form (text ++ piece.now) ≡ Err refusal)) }
{
    let taken = lines.take(piece)?;
    if !taken.whole {
        return Ok(taken.used);
    }
    table.read(form, lines.line())?;
    Ok(taken.used)
}

/// Takes the first line of a piece, or what there is of it, and answers how many bytes it took. A line that lies whole
/// in the piece is read where it lies.
fn take_line(
    lines: &mut Lines,
    form: Form,
    table: &mut Table,
    piece: &[u8],
) -> Result<usize, VectorRefusal>
    requires fine { IsFine form lines.old table.old }
    requires live { table.old.due ≡ dues.Nothing → ⊥ }
    requires some { 0 < length piece.now }
    requires room { table.old.place + length piece.now ≤ 2 ^ 27 }
    ensures fine { OnOk result (IsFine form lines.new table.new) }
    ensures used { IfOk result (λ used. (used ≤ length piece.now) × (0 < used) × (table.new.place ≤ table.old.place + used)) }
    ensures ok { IfOk result (λ used. (text : List ℕ) → HasReadLines form text lines.old table.old
        → HasReadLines form (text ++ take used piece.now) lines.new table.new) }
    ensures err { IfErr result (λ refusal. OrMemory refusal ((text : List ℕ) → HasReadLines form text lines.old table.old
        → lines_so_far form (text ++ piece.now) ≡ Err refusal)) }
{
    match lines.take_whole(piece) {
        Some(line) => {
            table.read(form, line)?;
            Ok(line.len() + 1)
        }
        None => take_cut(lines, form, table, piece),
    }
}

/// The same, where `stop` may have come before, after which no byte may stand.
fn take_next(
    lines: &mut Lines,
    form: Form,
    table: &mut Table,
    piece: &[u8],
) -> Result<usize, VectorRefusal>
    requires fine { IsFine form lines.old table.old }
    requires some { 0 < length piece.now }
    requires room { table.old.place + length piece.now ≤ 2 ^ 27 }
    ensures fine { OnOk result (IsFine form lines.new table.new) }
    ensures used { IfOk result (λ used. (used ≤ length piece.now) × (0 < used) × (table.new.place ≤ table.old.place + used)) }
    ensures ok { IfOk result (λ used. (text : List ℕ) → HasReadLines form text lines.old table.old
        → HasReadLines form (text ++ take used piece.now) lines.new table.new) }
    ensures err { IfErr result (λ refusal. OrMemory refusal ((text : List ℕ) → HasReadLines form text lines.old table.old
        → shown_by form (text ++ piece.now) false ≡ Some refusal)) }
{
    if table.has_stop() {
        Err(table.bad_line(form))
    } else {
        take_line(lines, form, table, piece)
    }
}

/// Takes a piece.
pub(crate) fn take_piece(
    lines: &mut Lines,
    form: Form,
    table: &mut Table,
    piece: &[u8],
) -> Result<(), VectorRefusal>
    requires fine { IsFine form lines.old table.old }
    requires room { table.old.place + length piece.now ≤ 2 ^ 27 }
    ensures fine { OnOk result (IsFine form lines.new table.new) }
    ensures place { OnOk result (table.new.place ≤ table.old.place + length piece.now) }
    ensures ok { OnOk result ((text : List ℕ) → HasReadLines form text lines.old table.old
        → HasReadLines form (text ++ piece.now) lines.new table.new) }
    ensures err { IfErr result (λ refusal. OrMemory refusal ((text : List ℕ) → HasReadLines form text lines.old table.old
        → shown_by form (text ++ piece.now) false ≡ Some refusal)) }
{
    let mut rest = piece;
    while !rest.is_empty() {
        let used = take_next(lines, form, table, rest)?;
        rest = &rest[used..];
    }
    Ok(())
}
