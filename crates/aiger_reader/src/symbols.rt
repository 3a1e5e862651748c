//! Symbols and comments.

ghost use Rattle.std.specs.Prelude.{◌≡◌, ◌==◌, ◌<◌, position, option_map};
ghost use Rattle.aiger_reader.specs.Symbols.{symbol_in, begins_comment, positions_of, position_refusal};

use crate::headers::{Header, over};
use crate::refusals::UnitRefusal;
use pulse_ids::Quantity;
use word_scan::decimal;

fn space(bytes: &[u8]) -> Option<usize>
    ensures { result ≡ position (λ b. b == 32) bytes.now }
{
    bytes.iter().position(|b| *b == b' ')
}

/// Whether the line is `c` alone, or `c` and then a byte that is no digit.
pub(crate) fn begins_comment(line: &[u8]) -> bool
    ensures { result ≡ begins_comment line.now }
{
    match line {
        [b'c'] => true,
        [b'c', next, ..] => !next.is_ascii_digit(),
        _ => false,
    }
}

/// The letter, the position and the name of a symbol.
pub(crate) fn read_symbol(line: &[u8]) -> Option<(u8, u32, &[u8])>
    ensures { option_map (λ s. (s.0, s.1, s.2.now)) result ≡ symbol_in line.now }
{
    let [letter, rest @ ..] = line else {
        return None;
    };
    let end = space(rest)?;
    let place = decimal(&rest[..end])?;
    let name = &rest[end + 1..];
    if name.is_empty() {
        None
    } else {
        Some((*letter, place, name))
    }
}

/// How many positions a letter names.
fn positions_of(header: Header, letter: u8) -> Option<u32>
    ensures { result ≡ positions_of header letter }
{
    match letter {
        b'i' => Some(header.inputs),
        b'l' => Some(header.latches),
        b'o' => Some(header.outputs),
        b'b' => Some(header.bad),
        b'c' => Some(header.constraints),
        b'j' => Some(header.justice),
        b'f' => Some(header.fairness),
        _ => None,
    }
}

/// Why a symbol is refused.
pub(crate) fn symbol_refusal(
    header: Header,
    letter: u8,
    place: u32,
    name: &[u8],
) -> Option<UnitRefusal>
    ensures { result ≡ position_refusal place name.now (positions_of header letter) }
{
    match positions_of(header, letter) {
        None => Some(UnitRefusal::BadLine),
        Some(positions) => {
            if place < positions {
                over(Quantity::NameBytes, name.len() as u64)
            } else {
                Some(UnitRefusal::SymbolRange)
            }
        }
    }
}
