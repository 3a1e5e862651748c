//! The units of a source: lines and deltas.

ghost use Rattle.std.specs.Prelude.{◌≡◌, ◌<◌, ◌+◌, Some, None, IfSome, IfNone, ◌^◌, length, position, ◌==◌};
ghost use Rattle.aiger_reader.specs.declared.units.UnitKind.TheVariants as kinds;
ghost use Rattle.aiger_reader.specs.Units.{ends_with, IsFirstEnd, HasNoEnd, without_last, line_of};

const LF: u8 = 10;

const CR: u8 = 13;

/// A line ends at LF. A delta ends at its first byte below 128, or at its sixth byte.
#[derive(Clone, Copy, Debug, PartialEq, Eq)]
pub enum UnitKind {
    Line,
    Delta,
}

/// The bytes without their last one, where it is this byte.
pub(crate) fn without_last(byte: u8, bytes: &[u8]) -> &[u8]
    requires { 0 < byte }
    ensures { result.now ≡ without_last byte bytes.now }
{
    if !bytes.is_empty() && bytes[bytes.len() - 1] == byte {
        &bytes[..bytes.len() - 1]
    } else {
        bytes
    }
}

/// The bytes without a CR at their end.
pub(crate) fn without_cr(bytes: &[u8]) -> &[u8]
    ensures { result.now ≡ without_last 13 bytes.now }
{
    without_last(CR, bytes)
}

/// The line of a unit: without its LF, and then without one CR.
pub(crate) fn line_of(unit: &[u8]) -> &[u8]
    ensures { result.now ≡ line_of unit.now }
{
    without_cr(without_last(LF, unit))
}

fn line_feed(piece: &[u8]) -> Option<usize>
    ensures { result ≡ position (λ b. b == 10) piece.now }
{
    piece.iter().position(|b| *b == LF)
}

/// The place of the byte that completes a line.
fn line_end(begun: usize, piece: &[u8]) -> Option<usize>
    ensures found { IfSome result (λ end. IsFirstEnd kinds.Line begun piece.now end) }
    ensures none { IfNone result (HasNoEnd kinds.Line begun piece.now) }
{
    match line_feed(piece) {
        Some(end) => Some(end),
        None => None,
    }
}

/// Whether this byte is the last one of a delta that has so many bytes before it.
fn ends_delta(before: usize, byte: u8) -> bool
    requires { before < 2 ^ 63 }
    ensures { result ≡ ends_with kinds.Delta before byte }
{
    byte < 128 || before + 1 == 6
}

/// The place of the byte that completes a delta.
fn delta_end(begun: usize, piece: &[u8]) -> Option<usize>
    requires { begun + length piece.now < 2 ^ 63 }
    ensures found { IfSome result (λ end. IsFirstEnd kinds.Delta begun piece.now end) }
    ensures none { IfNone result (HasNoEnd kinds.Delta begun piece.now) }
{
    for (place, byte) in piece.iter().enumerate() {
        if ends_delta(begun + place, *byte) {
            return Some(place);
        }
    }
    None
}

/// The place of the byte that completes a unit, of which so many bytes came before.
pub(crate) fn unit_end(kind: UnitKind, begun: usize, piece: &[u8]) -> Option<usize>
    requires { begun + length piece.now < 2 ^ 63 }
    ensures found { IfSome result (λ end. IsFirstEnd kind begun piece.now end) }
    ensures none { IfNone result (HasNoEnd kind begun piece.now) }
{
    match kind {
        UnitKind::Line => line_end(begun, piece),
        UnitKind::Delta => delta_end(begun, piece),
    }
}
