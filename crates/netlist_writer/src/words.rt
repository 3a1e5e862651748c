//! The words of a line, and the bytes that each is written as.

ghost use Rattle.std.specs.Prelude.{◌≡◌, IsFalse, decimal};
ghost use Rattle.byte_ports.specs.Writing.{WritesText};
ghost use Rattle.cell_netlist.specs.Text.{bit_word as bit_text, output_word as output_text, role_word as role_text, sign_word as sign_text, version_word as version_text};
ghost use Rattle.netlist_writer.specs.Texts.{word_text};

use byte_ports::{Failed, Sink, write_all};
use cell_netlist::{Role, Version};
use itoa::Buffer;
use pulse_ids::{Ident, Sign, WireId};

/// A word of a line.
#[derive(Clone, Copy, Debug)]
pub(crate) enum Word<'a> {
    Text(&'a [u8]),
    Number(u32),
}

pub(crate) fn version_word(version: Version) -> Word<'static>
    ensures { word_text result ≡ version_text version }
{
    match version {
        Version::One => Word::Text(b"1"),
        Version::Two => Word::Text(b"2"),
    }
}

pub(crate) fn sign_word(sign: Sign) -> Word<'static>
    ensures { word_text result ≡ sign_text sign }
{
    match sign {
        Sign::Pos => Word::Text(b"p"),
        Sign::Neg => Word::Text(b"n"),
    }
}

pub(crate) fn wire_word(wire: WireId) -> Word<'static>
    ensures { word_text result ≡ decimal wire.number }
{
    Word::Number(wire.number())
}

pub(crate) fn role_word(role: Role) -> Word<'static>
    ensures { word_text result ≡ role_text role }
{
    match role {
        Role::Front => Word::Text(b"f"),
        Role::Back => Word::Text(b"b"),
        Role::Const => Word::Text(b"c"),
    }
}

pub(crate) fn bit_word(bit: bool) -> Word<'static>
    ensures { word_text result ≡ bit_text bit }
{
    match bit {
        false => Word::Text(b"0"),
        true => Word::Text(b"1"),
    }
}

/// The word of an output that may be unused.
pub(crate) fn output_word(wire: Option<WireId>) -> Word<'static>
    ensures { word_text result ≡ output_text wire }
{
    match wire {
        Some(wire) => wire_word(wire),
        None => Word::Text(b"-"),
    }
}

pub(crate) fn write_word<K: Sink>(out: &mut K, word: Word<'_>) -> Result<(), Failed>
    ensures written { WritesText (K.taken out.old) (K.taken out.new) (K.faults out.old) (K.faults out.new) result (word_text word.entry) }
    ensures unflushed { IsFalse (K.flushed out.old) → IsFalse (K.flushed out.new) }
{
    match word {
        Word::Text(text) => write_all(out, text),
        Word::Number(number) => write_all(out, Buffer::new().format(number).as_bytes()),
    }
}
