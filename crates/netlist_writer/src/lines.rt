//! Lines: words parted by one space and ended by LF.

ghost use Rattle.std.specs.Prelude.{◌∷◌, [], ◌<◌, codes, map, length, IsFalse};
ghost use Rattle.std.specs.List.{flat_map};
ghost use Rattle.byte_ports.specs.Writing.{WritesText};
ghost use Rattle.cell_netlist.specs.Text.{cell_words, line_of, name_words, rail_words, state_words, version_word as version_text};
ghost use Rattle.netlist_writer.specs.Texts.{spaced, word_text};

use crate::words::{
    Word, bit_word, output_word, role_word, sign_word, version_word, wire_word, write_word,
};
use byte_ports::{Failed, Sink, write_all};
use cell_netlist::{Cell, Rail, StateLine, Version};
use pulse_ids::{Ident, Name};

fn write_spaced<K: Sink>(out: &mut K, word: Word<'_>) -> Result<(), Failed>
    ensures written { WritesText (K.taken out.old) (K.taken out.new) (K.faults out.old) (K.faults out.new) result (spaced word.entry) }
    ensures unflushed { IsFalse (K.flushed out.new) }
{
    write_all(out, b" ")?;
    write_word(out, word)
}

fn write_words<K: Sink>(out: &mut K, words: &[Word<'_>]) -> Result<(), Failed>
    ensures written { WritesText (K.taken out.old) (K.taken out.new) (K.faults out.old) (K.faults out.new) result (flat_map spaced words.entry.now) }
    ensures unflushed { IsFalse (K.flushed out.old) → IsFalse (K.flushed out.new) }
{
    for word in words {
        write_spaced(out, *word)?;
    }
    Ok(())
}

/// One line: a first word, then each of the others behind a space, then LF.
pub(crate) fn write_line<K: Sink>(
    out: &mut K,
    first: &[u8],
    words: &[Word<'_>],
) -> Result<(), Failed>
    ensures written { WritesText (K.taken out.old) (K.taken out.new) (K.faults out.old) (K.faults out.new) result (line_of (first.now ∷ map word_text words.entry.now)) }
    ensures stays { IsFalse (K.flushed out.old) → IsFalse (K.flushed out.new) }
    ensures unflushed { 0 < length first.now → IsFalse (K.flushed out.new) }
{
    write_all(out, first)?;
    write_words(out, words)?;
    write_all(out, b"\n")
}

/// The line of a version.
pub(crate) fn write_version<K: Sink>(out: &mut K, version: Version) -> Result<(), Failed>
    ensures written { WritesText (K.taken out.old) (K.taken out.new) (K.faults out.old) (K.faults out.new) result (line_of (codes "xsfq" ∷ version_text version ∷ [])) }
    ensures unflushed { IsFalse (K.flushed out.new) }
{
    let words = [version_word(version)];
    write_line(out, b"xsfq", &words)
}

/// The line of a rail of the inputs' or the outputs' side.
pub(crate) fn write_rail<K: Sink>(out: &mut K, side: &[u8], rail: Rail) -> Result<(), Failed>
    ensures written { WritesText (K.taken out.old) (K.taken out.new) (K.faults out.old) (K.faults out.new) result (line_of (rail_words side.now rail)) }
    ensures unflushed { IsFalse (K.flushed out.old) → IsFalse (K.flushed out.new) }
{
    let words = [
        Word::Number(rail.port),
        sign_word(rail.sign),
        wire_word(rail.wire),
    ];
    write_line(out, side, &words)
}

/// The line of a cell.
pub(crate) fn write_cell<K: Sink>(out: &mut K, cell: Cell) -> Result<(), Failed>
    ensures written { WritesText (K.taken out.old) (K.taken out.new) (K.faults out.old) (K.faults out.new) result (line_of (cell_words cell)) }
    ensures unflushed { IsFalse (K.flushed out.old) → IsFalse (K.flushed out.new) }
{
    match cell {
        Cell::La { a, b, out: driven } => write_line(
            out,
            b"la",
            &[wire_word(a), wire_word(b), wire_word(driven)],
        ),
        Cell::Fa { a, b, out: driven } => write_line(
            out,
            b"fa",
            &[wire_word(a), wire_word(b), wire_word(driven)],
        ),
        Cell::Split { from, left, right } => {
            write_line(
                out,
                b"split",
                &[wire_word(from), wire_word(left), wire_word(right)],
            )
        }
        Cell::Droc {
            role,
            preload,
            feed,
            q,
            n,
        } => {
            let words = [
                role_word(role),
                bit_word(preload),
                wire_word(feed),
                output_word(q),
                output_word(n),
            ];
            write_line(out, b"droc", &words)
        }
    }
}

/// The line of a latch and its cell.
pub(crate) fn write_state<K: Sink>(out: &mut K, state: StateLine) -> Result<(), Failed>
    ensures written { WritesText (K.taken out.old) (K.taken out.new) (K.faults out.old) (K.faults out.new) result (line_of (state_words state)) }
    ensures unflushed { IsFalse (K.flushed out.old) → IsFalse (K.flushed out.new) }
{
    let words = [Word::Number(state.latch), Word::Number(state.cell.number())];
    write_line(out, b"state", &words)
}

/// The line of a port and its name on the inputs' or the outputs' side.
pub(crate) fn write_name<K: Sink>(
    out: &mut K,
    side: &[u8],
    named: &(u32, Name),
) -> Result<(), Failed>
    ensures written { WritesText (K.taken out.old) (K.taken out.new) (K.faults out.old) (K.faults out.new) result (line_of (name_words side.now named.now)) }
    ensures unflushed { IsFalse (K.flushed out.old) → IsFalse (K.flushed out.new) }
{
    let (port, name) = named;
    write_line(out, side, &[Word::Number(*port), Word::Text(name.bytes())])
}
