//! Texts that are written piece by piece, without memory.

ghost use Rattle.std.specs.Prelude.{◌≡◌, ◌<◌, ◌++◌, IsFalse, IsOk, decimal, length};
ghost use Rattle.std.specs.List.{flat_map};
ghost use Rattle.byte_ports.specs.Writing.{WritesText};
ghost use Rattle.text_pieces.specs.Pieces.{piece_text};

use byte_ports::{Failed, Sink, write_all};
use itoa::Buffer;

/// A piece of a text.
#[derive(Clone, Copy, Debug)]
pub enum Piece<'a> {
    /// These bytes.
    Text(&'a [u8]),
    /// One byte.
    Byte(u8),
    /// The decimal of a number, without leading zeros.
    Number(u64),
}

/// Writes pieces one after the other. It takes no memory, and does not flush: a text without bytes leaves the sink as
/// it was, and after any other it isn't flushed.
///
/// # Errors
///
/// `Failed` where a write failed: the sink took a prefix of the pieces' text.
pub fn write_pieces<K: Sink>(pieces: &[Piece<'_>], sink: &mut K) -> Result<(), Failed>
    ensures written { WritesText (K.taken sink.old) (K.taken sink.new) (K.faults sink.old) (K.faults sink.new) result (flat_map piece_text pieces.entry.now) }
    ensures unflushed { 0 < length (flat_map piece_text pieces.entry.now) → IsFalse (K.flushed sink.new) }
    ensures empty { length (flat_map piece_text pieces.entry.now) ≡ 0 → IsOk result }
    ensures untouched { length (flat_map piece_text pieces.entry.now) ≡ 0 → sink.new ≡ sink.old }
{
    for piece in pieces {
        write_piece(*piece, sink)?;
    }
    Ok(())
}

/// Writes one piece.
fn write_piece<K: Sink>(piece: Piece<'_>, sink: &mut K) -> Result<(), Failed>
    ensures written { WritesText (K.taken sink.old) (K.taken sink.new) (K.faults sink.old) (K.faults sink.new) result (piece_text piece.entry) }
    ensures unflushed { 0 < length (piece_text piece.entry) → IsFalse (K.flushed sink.new) }
    ensures empty { length (piece_text piece.entry) ≡ 0 → IsOk result }
    ensures untouched { length (piece_text piece.entry) ≡ 0 → sink.new ≡ sink.old }
{
    match piece {
        Piece::Text(text) => write_all(sink, text),
        Piece::Byte(byte) => write_all(sink, &[byte]),
        Piece::Number(number) => write_all(sink, Buffer::new().format(number).as_bytes()),
    }
}

/// Writes a text, a number in decimal, and a text after it. It takes no memory, and does not flush: the sink isn't
/// flushed after it.
///
/// # Errors
///
/// `Failed` where a write failed: the sink took a prefix of the whole text.
pub fn write_numbered<'a, K: Sink>(
    before: &'a [u8],
    number: u32,
    after: &'a [u8],
    sink: &mut K,
) -> Result<(), Failed>
    ensures written { WritesText (K.taken sink.old) (K.taken sink.new) (K.faults sink.old) (K.faults sink.new) result (before.now ++ (decimal number ++ after.now)) }
    ensures unflushed { IsFalse (K.flushed sink.new) }
{
    let pieces = [
        Piece::Text(before),
        Piece::Number(number as u64),
        Piece::Text(after),
    ];
    write_pieces(&pieces, sink)
}
