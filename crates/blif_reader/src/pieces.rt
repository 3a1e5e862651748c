//! Lines of a source that comes in pieces, each read as soon as it is whole.

ghost use Rattle.std.specs.Prelude.{◌≡◌, ◌≤◌, ◌<◌, ◌^◌, ◌+◌, ◌-◌, ◌++◌, ◌∷◌, [], ℕ, List, Ok, Err, IfOk, IfErr, OnOk, IfSome, IfNone, false, true, take, length};
ghost use Rattle.word_scan.specs.Lines.{next_number};
ghost use Rattle.word_scan.specs.Logical.{begun_line, logical_after, logical_begun};
ghost use Rattle.blif_reader.specs.Sources.{lines_read, text_read, limit, line_read};
ghost use Rattle.blif_reader.specs.Bounds.{IsBounded};
ghost use Rattle.blif_reader.specs.Readings.{HasRead, OrMemory};

use crate::refusals::BlifRefusal;
use crate::states::State;
use source_machine::Unset;
use std::alloc::Global;
use word_scan::{Lines, Logical};

/// Reads a logical line that begins at this line.
pub(crate) fn read_logical(
    alloc: Global,
    unset: Unset,
    state: &mut State,
    text: &[u8],
    first: u32,
) -> Result<(), BlifRefusal>
    requires { IsBounded state.old }
    ensures bounded { OnOk result (IsBounded state.new) }
    ensures ok { OnOk result (line_read unset state.old (record { first = first; text = text.now }) ≡ Ok state.new) }
    ensures err { IfErr result (λ refusal. OrMemory refusal (line_read unset state.old (record { first = first; text = text.now }) ≡ Err refusal)) }
{
    match state.read(alloc, unset, text) {
        Ok(()) => Ok(()),
        Err(refusal) => Err(refusal.at(first)),
    }
}

/// Reads a physical line, and the logical line that it completes. A logical line that is one physical line is read
/// where it lies.
pub(crate) fn read_line(
    alloc: Global,
    unset: Unset,
    logical: &mut Logical,
    state: &mut State,
    line: &[u8],
    number: u32,
) -> Result<(), BlifRefusal>
    requires { IsBounded state.old }
    ensures bounded { OnOk result (IsBounded state.new) }
    ensures begun { OnOk result (logical_begun (begun_line logical.old) number (line.now ∷ []) ≡ begun_line logical.new) }
    ensures ok { OnOk result (lines_read unset (Ok state.old) (logical_after (begun_line logical.old) number (line.now ∷ [])) ≡ Ok state.new) }
    ensures err { IfErr result (λ refusal. OrMemory refusal (lines_read unset (Ok state.old) (logical_after (begun_line logical.old) number (line.now ∷ [])) ≡ Err refusal)) }
{
    if let Some(text) = logical.alone(line) {
        return read_logical(alloc, unset, state, text, number);
    }
    if logical.take(line, number)? {
        return read_logical(alloc, unset, state, logical.text(), logical.first());
    }
    Ok(())
}

/// Takes the bytes of a piece up to its first LF, and reads the line, or keeps them all. It answers how many bytes it
/// took.
fn take_line(
    alloc: Global,
    unset: Unset,
    lines: &mut Lines,
    logical: &mut Logical,
    state: &mut State,
    piece: &[u8],
) -> Result<usize, BlifRefusal>
    requires bounded { IsBounded state.old }
    requires few { next_number lines.old < 2 ^ 31 }
    ensures bounded { OnOk result (IsBounded state.new) }
    ensures used { IfOk result (λ used. (used ≤ length piece.now) × (0 < length piece.now → 0 < used)) }
    ensures few { IfOk result (λ used. next_number lines.new ≤ next_number lines.old + used) }
    ensures ok { IfOk result (λ used. (text : List ℕ) → HasRead unset text lines.old logical.old state.old
        → HasRead unset (text ++ take used piece.now) lines.new logical.new state.new) }
    ensures err { IfErr result (λ refusal. (text : List ℕ) → HasRead unset text lines.old logical.old state.old
        → OrMemory refusal (text_read unset (text ++ piece.now) ≡ Err refusal)) }
{
    if let Some(line) = lines.take_whole(piece) {
        let number = lines.number() - 1;
        read_line(alloc, unset, logical, state, line, number)?;
        return Ok(line.len() + 1);
    }
    let taken = lines.take(piece)?;
    if !taken.whole {
        return Ok(taken.used);
    }
    read_line(alloc, unset, logical, state, lines.line(), lines.number())?;
    Ok(taken.used)
}

/// Takes a piece.
pub(crate) fn take_piece(
    alloc: Global,
    unset: Unset,
    lines: &mut Lines,
    logical: &mut Logical,
    state: &mut State,
    piece: &[u8],
) -> Result<(), BlifRefusal>
    requires bounded { IsBounded state.old }
    requires few { next_number lines.old + length piece.now ≤ limit + 1 }
    ensures bounded { OnOk result (IsBounded state.new) }
    ensures few { OnOk result (next_number lines.new ≤ next_number lines.old + length piece.now) }
    ensures ok { OnOk result ((text : List ℕ) → HasRead unset text lines.old logical.old state.old
        → HasRead unset (text ++ piece.now) lines.new logical.new state.new) }
    ensures err { IfErr result (λ refusal. (text : List ℕ) → HasRead unset text lines.old logical.old state.old
        → OrMemory refusal (text_read unset (text ++ piece.now) ≡ Err refusal)) }
{
    let mut rest = piece;
    while !rest.is_empty() {
        let used = take_line(alloc, unset, lines, logical, state, rest)?;
        rest = &rest[used..];
    }
    Ok(())
}
