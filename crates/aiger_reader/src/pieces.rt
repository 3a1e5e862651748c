//! Units of a source that comes in pieces, each read as soon as it is whole.

ghost use Rattle.std.specs.Prelude.{◌≡◌, ◌≤◌, ◌<◌, ◌+◌, ◌-◌, ◌++◌, [], ℕ, List, Some, None, Ok, IfOk, IfErr, OnOk, IfSome, IfNone, IsTrue, ◌↔◌, take, length};
ghost use Rattle.word_scan.specs.Lines.{HasNoFeed};
ghost use Rattle.aiger_reader.specs.declared.units.UnitKind.TheVariants as kinds;
ghost use Rattle.aiger_reader.specs.Units.{line_of, IsFirstEnd, HasNoEnd};
ghost use Rattle.aiger_reader.specs.Sections.{kind_at};
ghost use Rattle.aiger_reader.specs.Sources.{limit};
ghost use Rattle.aiger_reader.specs.Building.{shown_read, text_read, StopsFor};
ghost use Rattle.aiger_reader.specs.Bounds.{IsBounded};
ghost use Rattle.aiger_reader.specs.Readings.{HasRead, IsFine};

use crate::built::Built;
use crate::refusals::Stop;
use crate::units::unit_end;
use source_machine::Unset;
use std::alloc::Global;

fn is_nothing(begun: &[u8]) -> bool
    ensures { IsTrue result ↔ (begun.now ≡ []) }
{
    begun.is_empty()
}

/// The place of the byte that completes the unit of which these bytes came before.
fn end_in(built: &Built, begun: &[u8], piece: &[u8]) -> Option<usize>
    requires bounded { IsBounded built.now }
    requires room { length begun.now + length piece.now ≤ limit }
    ensures found { IfSome result (λ end. IsFirstEnd (kind_at built.now.header built.now.place) (length begun.now) piece.now end) }
    ensures none { IfNone result (HasNoEnd (kind_at built.now.header built.now.place) (length begun.now) piece.now) }
{
    unit_end(built.kind(), begun.len(), piece)
}

/// Reads the unit of the bytes that were kept and these ones. Where none were kept, it is read
/// where it lies.
fn read_whole(
    alloc: Global,
    unset: Unset,
    begun: &mut Vec<u8>,
    built: &mut Built,
    rest: &[u8],
) -> Result<(), Stop>
    requires bounded { IsBounded built.old }
    requires some { 0 < length rest.now }
    requires plain { kind_at built.old.header built.old.place ≡ kinds.Line → HasNoFeed (line_of (begun.old.items ++ rest.now)) }
    requires room { built.old.start + (length begun.old.items + length rest.now) ≤ limit }
    ensures bounded { OnOk result (IsBounded built.new) }
    ensures start { OnOk result (built.new.start ≡ built.old.start + (length begun.old.items + length rest.now)) }
    ensures empty { OnOk result (begun.new.items ≡ []) }
    ensures ok { OnOk result (shown_read unset built.old (begun.old.items ++ rest.now) ≡ Ok built.new) }
    ensures err { IfErr result (λ stop. StopsFor stop (shown_read unset built.old (begun.old.items ++ rest.now))) }
{
    if is_nothing(begun.as_slice()) {
        return built.read(alloc, unset, rest);
    }
    begun.extend_from_slice(rest)?;
    built.read(alloc, unset, begun.as_slice())?;
    begun.clear();
    Ok(())
}

/// Takes the bytes of a piece up to the one that completes a unit, and reads it, or keeps them all.
/// It answers how many bytes it took.
fn take_unit(
    alloc: Global,
    unset: Unset,
    begun: &mut Vec<u8>,
    built: &mut Built,
    piece: &[u8],
) -> Result<usize, Stop>
    requires fine { IsFine begun.old.items built.old }
    requires room { built.old.start + (length begun.old.items + length piece.now) ≤ limit }
    ensures fine { OnOk result (IsFine begun.new.items built.new) }
    ensures used { IfOk result (λ used. (used ≤ length piece.now) × (0 < length piece.now → 0 < used)) }
    ensures start { IfOk result (λ used. built.new.start + length begun.new.items ≡ built.old.start + (length begun.old.items + used)) }
    ensures ok { IfOk result (λ used. (text : List ℕ) → HasRead unset text begun.old.items built.old
        → HasRead unset (text ++ take used piece.now) begun.new.items built.new) }
    ensures err { IfErr result (λ stop. (text : List ℕ) → HasRead unset text begun.old.items built.old
        → StopsFor stop (text_read unset (text ++ piece.now))) }
{
    match end_in(built, begun.as_slice(), piece) {
        None => {
            begun.extend_from_slice(piece)?;
            Ok(piece.len())
        }
        Some(end) => {
            read_whole(alloc, unset, begun, built, &piece[..end + 1])?;
            Ok(end + 1)
        }
    }
}

/// Takes a piece.
pub(crate) fn take_piece(
    alloc: Global,
    unset: Unset,
    begun: &mut Vec<u8>,
    built: &mut Built,
    piece: &[u8],
) -> Result<(), Stop>
    requires fine { IsFine begun.old.items built.old }
    requires room { built.old.start + (length begun.old.items + length piece.now) ≤ limit }
    ensures fine { OnOk result (IsFine begun.new.items built.new) }
    ensures start { OnOk result (built.new.start + length begun.new.items ≡ built.old.start + (length begun.old.items + length piece.now)) }
    ensures ok { OnOk result ((text : List ℕ) → HasRead unset text begun.old.items built.old
        → HasRead unset (text ++ piece.now) begun.new.items built.new) }
    ensures err { IfErr result (λ stop. (text : List ℕ) → HasRead unset text begun.old.items built.old
        → StopsFor stop (text_read unset (text ++ piece.now))) }
{
    let mut rest = piece;
    while !rest.is_empty() {
        let used = take_unit(alloc, unset, begun, built, rest)?;
        rest = &rest[used..];
    }
    Ok(())
}
