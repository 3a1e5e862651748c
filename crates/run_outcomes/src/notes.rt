//! The line of an outcome, written without memory.

ghost use Rattle.std.specs.Prelude.{◌≡◌, ◌++◌, IsFalse};
ghost use Rattle.byte_ports.specs.Writing.{WritesText};
ghost use Rattle.run_outcomes.specs.declared.outcomes.Outcome.TheVariants as outcomes;
ghost use Rattle.run_outcomes.specs.Notes.{aiger_text, blif_line, blif_text, fault_line, limit_line, note_of, place_text, quantity_text};
ghost use Rattle.text_pieces.specs.Pieces.{piece_text};

use crate::net_notes::{write_net_refusal, write_unsound};
use crate::outcomes::Outcome;
use crate::simulation_notes::{write_script_fault, write_vector_refusal};
use aiger_reader::{AigerCause, AigerFault};
use blif_reader::{BlifCause, BlifFault};
use byte_ports::{Failed, Sink, write_all};
use pulse_ids::Quantity;
use source_machine::Place;
use text_pieces::{Piece, write_pieces};

/// Writes the line of an outcome with its line feed, after which `notes` isn't flushed; for `Done` nothing, and `notes`
/// stays as it was. It takes no memory.
///
/// # Errors
///
/// `Failed` where a write failed: the sink took a prefix of the line.
pub fn write_outcome_line<E: Sink>(outcome: &Outcome, notes: &mut E) -> Result<(), Failed>
    ensures written { WritesText (E.taken notes.old) (E.taken notes.new) (E.faults notes.old) (E.faults notes.new) result (note_of outcome.now) }
    ensures unflushed { (outcome.now ≡ outcomes.Done → ⊥) → IsFalse (E.flushed notes.new) }
    ensures untouched { outcome.now ≡ outcomes.Done → notes.new ≡ notes.old }
{
    match outcome {
        Outcome::Done => Ok(()),
        Outcome::Usage => write_all(
            notes,
            b"usage: compile, check, simulate, report or workload\n",
        ),
        Outcome::Blif(fault) => write_blif(fault, notes),
        Outcome::Aiger(fault) => write_fault(fault, notes),
        Outcome::NetText(refusal) => write_net_refusal(*refusal, notes),
        Outcome::Vector(refusal) => write_vector_refusal(*refusal, notes),
        Outcome::Limit(quantity) => write_limit(*quantity, notes),
        Outcome::Unsound(unsound) => write_unsound(*unsound, notes),
        Outcome::Script {
            cycle,
            phase,
            fault,
        } => write_script_fault(*cycle, *phase, *fault, notes),
        Outcome::ReadFault => write_all(notes, b"read failed\n"),
        Outcome::WriteFault => write_all(notes, b"write failed\n"),
        Outcome::NoMemory => write_all(notes, b"no memory\n"),
    }
}

/// Writes the line of a limit.
pub(crate) fn write_limit<E: Sink>(quantity: Quantity, notes: &mut E) -> Result<(), Failed>
    ensures written { WritesText (E.taken notes.old) (E.taken notes.new) (E.faults notes.old) (E.faults notes.new) result (limit_line quantity) }
    ensures unflushed { IsFalse (E.flushed notes.new) }
{
    let pieces = [
        Piece::Text(b"limit: more than "),
        Piece::Number(quantity.greatest()),
        Piece::Text(b" of "),
        quantity_piece(quantity),
        Piece::Text(b"\n"),
    ];
    write_pieces(&pieces, notes)
}

/// What is counted.
fn quantity_piece(quantity: Quantity) -> Piece<'static>
    ensures { piece_text result ≡ quantity_text quantity }
{
    let text: &[u8] = match quantity {
        Quantity::SourceBytes => b"source bytes",
        Quantity::NetBytes => b"netlist bytes",
        Quantity::TailBytes => b"bytes after the netlist",
        Quantity::Inputs => b"inputs",
        Quantity::Outputs => b"outputs",
        Quantity::Latches => b"latches",
        Quantity::Nets => b"nets",
        Quantity::Size => b"size",
        Quantity::NameBytes => b"name bytes",
        Quantity::Wires => b"wires",
        Quantity::Vectors => b"vectors",
    };
    Piece::Text(text)
}

/// Writes the line of a fault of an AIGER source.
fn write_fault<E: Sink>(fault: &AigerFault, notes: &mut E) -> Result<(), Failed>
    ensures written { WritesText (E.taken notes.old) (E.taken notes.new) (E.faults notes.old) (E.faults notes.new) result (fault_line fault.now) }
    ensures unflushed { IsFalse (E.flushed notes.new) }
{
    let (what, which) = cause_pieces(&fault.cause);
    let (place, number, colon) = place_pieces(fault.place);
    let pieces = [
        Piece::Text(b"source: "),
        place,
        number,
        colon,
        what,
        which,
        Piece::Text(b"\n"),
    ];
    write_pieces(&pieces, notes)
}

/// Writes the line of a fault of a BLIF source.
fn write_blif<E: Sink>(fault: &BlifFault, notes: &mut E) -> Result<(), Failed>
    ensures written { WritesText (E.taken notes.old) (E.taken notes.new) (E.faults notes.old) (E.faults notes.new) result (blif_line fault.now) }
    ensures unflushed { IsFalse (E.flushed notes.new) }
{
    let (what, which) = blif_pieces(&fault.cause);
    let (place, number, colon) = place_pieces(fault.place);
    let pieces = [
        Piece::Text(b"source: "),
        place,
        number,
        colon,
        what,
        which,
        Piece::Text(b"\n"),
    ];
    write_pieces(&pieces, notes)
}

/// Where a fault is.
fn place_pieces(place: Place) -> (Piece<'static>, Piece<'static>, Piece<'static>)
    ensures { piece_text result.0 ++ (piece_text result.1 ++ piece_text result.2) ≡ place_text place }
{
    match place {
        Place::Line(number) => (
            Piece::Text(b"line "),
            Piece::Number(number as u64),
            Piece::Text(b": "),
        ),
        Place::Byte(number) => (
            Piece::Text(b"byte "),
            Piece::Number(number as u64),
            Piece::Text(b": "),
        ),
        Place::Whole => (Piece::Text(b""), Piece::Text(b""), Piece::Text(b"")),
    }
}

/// What is wrong: a text, and the letter, number or name after it.
fn cause_pieces(cause: &AigerCause) -> (Piece<'_>, Piece<'_>)
    ensures { piece_text result.0 ++ piece_text result.1 ≡ aiger_text cause.now }
{
    let none = Piece::Text(b"");
    match cause {
        AigerCause::BadHeader => (Piece::Text(b"bad header"), none),
        AigerCause::Property(letter) => (Piece::Text(b"property "), Piece::Byte(*letter)),
        AigerCause::BadLine => (Piece::Text(b"bad line"), none),
        AigerCause::OutOfRange(literal) => (
            Piece::Text(b"literal out of range: "),
            Piece::Number(*literal as u64),
        ),
        AigerCause::NoFixedInit(latch) => (
            Piece::Text(b"no fixed initial value: latch "),
            Piece::Number(*latch as u64),
        ),
        AigerCause::BadDelta => (Piece::Text(b"bad delta"), none),
        AigerCause::SymbolRange => (Piece::Text(b"symbol out of range"), none),
        AigerCause::Truncated => (Piece::Text(b"truncated"), none),
        AigerCause::DoubleDriver(name) => (
            Piece::Text(b"driven twice: "),
            Piece::Text(name.bytes()),
        ),
        AigerCause::Undriven(name) => (Piece::Text(b"undriven: "), Piece::Text(name.bytes())),
        AigerCause::Cycle(name) => (
            Piece::Text(b"combinational cycle through "),
            Piece::Text(name.bytes()),
        ),
    }
}

/// What is wrong with a BLIF source: a text, and the word or name after it.
fn blif_pieces(cause: &BlifCause) -> (Piece<'_>, Piece<'_>)
    ensures { piece_text result.0 ++ piece_text result.1 ≡ blif_text cause.now }
{
    let none = Piece::Text(b"");
    match cause {
        BlifCause::BadWord => (Piece::Text(b"bad word"), none),
        BlifCause::NoModel => (Piece::Text(b"no model"), none),
        BlifCause::SecondModel => (Piece::Text(b"second model"), none),
        BlifCause::AfterEnd => (Piece::Text(b"text after end"), none),
        BlifCause::Unsupported(word) => (Piece::Text(b"unsupported: "), Piece::Text(word.bytes())),
        BlifCause::RowShape => (Piece::Text(b"bad row"), none),
        BlifCause::MixedCover => (Piece::Text(b"mixed cover"), none),
        BlifCause::StrayRow => (Piece::Text(b"stray row"), none),
        BlifCause::LatchType => (Piece::Text(b"latch type"), none),
        BlifCause::MixedClock => (Piece::Text(b"mixed clock"), none),
        BlifCause::NoFixedInit(name) => (
            Piece::Text(b"no fixed initial value: "),
            Piece::Text(name.bytes()),
        ),
        BlifCause::ClockAsData(name) => (
            Piece::Text(b"clock read as data: "),
            Piece::Text(name.bytes()),
        ),
        BlifCause::DerivedClock(name) => (
            Piece::Text(b"derived clock: "),
            Piece::Text(name.bytes()),
        ),
        BlifCause::DoubleDriver(name) => (
            Piece::Text(b"driven twice: "),
            Piece::Text(name.bytes()),
        ),
        BlifCause::Undriven(name) => (Piece::Text(b"undriven: "), Piece::Text(name.bytes())),
        BlifCause::Cycle(name) => (
            Piece::Text(b"combinational cycle through "),
            Piece::Text(name.bytes()),
        ),
    }
}
