//! The lines of refused netlist texts and of unsound netlists.

ghost use Rattle.std.specs.Prelude.{◌≡◌, ◌++◌, IsFalse, decimal};
ghost use Rattle.byte_ports.specs.Writing.{WritesText};
ghost use Rattle.run_outcomes.specs.Notes.{net_line, rule_text, unsound_line};

use crate::notes::write_limit;
use byte_ports::{Failed, Sink, write_all};
use cell_netlist::{RailLine, Unsound};
use netlist_reader::NetRefusal;
use pulse_ids::Ident;
use text_pieces::{Piece, write_numbered, write_pieces};

/// Writes the line of a refused netlist text.
pub(crate) fn write_net_refusal<E: Sink>(refusal: NetRefusal, notes: &mut E) -> Result<(), Failed>
    ensures written { WritesText (E.taken notes.old) (E.taken notes.new) (E.faults notes.old) (E.faults notes.new) result (net_line refusal) }
    ensures unflushed { IsFalse (E.flushed notes.new) }
{
    match refusal {
        NetRefusal::BadLine(line) => write_numbered(
            b"netlist: line ",
            line,
            b": bad line\n",
            notes,
        ),
        NetRefusal::Truncated => write_all(notes, b"netlist: truncated\n"),
        NetRefusal::Limit(quantity) => write_limit(quantity, notes),
        NetRefusal::NoMemory => write_all(notes, b"no memory\n"),
    }
}

/// Writes the line of an unsound netlist.
pub(crate) fn write_unsound<E: Sink>(unsound: Unsound, notes: &mut E) -> Result<(), Failed>
    ensures written { WritesText (E.taken notes.old) (E.taken notes.new) (E.faults notes.old) (E.faults notes.new) result (unsound_line unsound) }
    ensures unflushed { IsFalse (E.flushed notes.new) }
{
    let (before, number, after) = rule_parts(unsound);
    let pieces = [
        Piece::Text(b"unsound: "),
        Piece::Text(before),
        Piece::Number(number as u64),
        Piece::Text(after),
        Piece::Text(b"\n"),
    ];
    write_pieces(&pieces, notes)
}

/// The rule that is broken: what stands before the number, the number, and what stands after it.
#[tactic(auto, using(crate::proofs::NoteLines::number_last))]
fn rule_parts(unsound: Unsound) -> (&'static [u8], u32, &'static [u8])
    ensures { result.0.now ++ (decimal result.1 ++ result.2.now) ≡ rule_text unsound }
{
    match unsound {
        Unsound::WireUndriven(wire) => (b"wire ", wire.number(), b" undriven"),
        Unsound::WireTwiceDriven(wire) => (b"wire ", wire.number(), b" driven twice"),
        Unsound::WireUnread(wire) => (b"wire ", wire.number(), b" unread"),
        Unsound::WireTwiceRead(wire) => (b"wire ", wire.number(), b" read twice"),
        Unsound::PortRange(RailLine::Input(rail)) => {
            (b"port out of range at input ", rail.number(), b"")
        }
        Unsound::PortRange(RailLine::Output(rail)) => {
            (b"port out of range at output ", rail.number(), b"")
        }
        Unsound::RailTwice(rail) => (b"rail twice at input ", rail.number(), b""),
        Unsound::Loop(cell) => (b"loop at cell ", cell.number(), b""),
        Unsound::LooseDroc(cell) => (b"loose droc at cell ", cell.number(), b""),
        Unsound::WrongPreload(cell) => (b"wrong preload at cell ", cell.number(), b""),
        Unsound::LooseState(k) => (b"loose state at line ", k, b""),
    }
}
