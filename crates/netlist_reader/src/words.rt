//! The words of a line, which single spaces part, and what they mean.

ghost use Rattle.std.specs.Prelude.{◌≡◌, Some, None, IfSome, IfNone};
ghost use Rattle.word_scan.specs.Words.{parted};
ghost use Rattle.netlist_reader.specs.Words.{after_space, name_in, sign_of, role_of, bit_of, wire_in, output_in};

use cell_netlist::Role;
use pulse_ids::{Ident, Sign, WireId};
use word_scan::{part_at, plain_decimal};

/// What stands before the first space of a line, and what after it.
pub(crate) fn parted(line: &[u8]) -> Option<(&[u8], &[u8])>
    ensures found { IfSome result (λ parts. parted 32 line.now ≡ Some (parts.0.now, parts.1.now)) }
    ensures none { IfNone result (parted 32 line.now ≡ None) }
{
    part_at(line, b' ')
}

/// What stands after the first space of a line.
fn after_space(line: &[u8]) -> &[u8]
    ensures { result.now ≡ after_space line.now }
{
    match parted(line) {
        Some((_, rest)) => rest,
        None => b"",
    }
}

/// The name in a line of a name: what stands after its second space.
pub(crate) fn name_in(line: &[u8]) -> &[u8]
    ensures { result.now ≡ name_in line.now }
{
    after_space(after_space(line))
}

pub(crate) fn sign_of(word: &[u8]) -> Option<Sign>
    ensures { result ≡ sign_of word.now }
{
    match word {
        b"p" => Some(Sign::Pos),
        b"n" => Some(Sign::Neg),
        _ => None,
    }
}

pub(crate) fn role_of(word: &[u8]) -> Option<Role>
    ensures { result ≡ role_of word.now }
{
    match word {
        b"f" => Some(Role::Front),
        b"b" => Some(Role::Back),
        b"c" => Some(Role::Const),
        _ => None,
    }
}

pub(crate) fn bit_of(word: &[u8]) -> Option<bool>
    ensures { result ≡ bit_of word.now }
{
    match word {
        b"0" => Some(false),
        b"1" => Some(true),
        _ => None,
    }
}

pub(crate) fn wire_in(word: &[u8]) -> Option<WireId>
    ensures { result ≡ wire_in word.now }
{
    Some(WireId::new(plain_decimal(word)?))
}

/// A wire, or `-` for an unused output.
pub(crate) fn output_in(word: &[u8]) -> Option<Option<WireId>>
    ensures { result ≡ output_in word.now }
{
    match word {
        b"-" => Some(None),
        _ => Some(Some(wire_in(word)?)),
    }
}
