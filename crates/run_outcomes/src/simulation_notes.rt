//! The lines of refused texts of vectors and of scripts that don't fit.

ghost use Rattle.std.specs.Prelude.{◌≡◌, ◌++◌, IsFalse};
ghost use Rattle.byte_ports.specs.Writing.{WritesText};
ghost use Rattle.run_outcomes.specs.Notes.{phase_text, script_line, script_text, vector_line};
ghost use Rattle.text_pieces.specs.Pieces.{piece_text};

use crate::notes::write_limit;
use byte_ports::{Failed, Sink, write_all};
use cell_netlist::Phase;
use pulse_ids::Ident;
use schedule_replay::{ScriptFault, VectorRefusal};
use text_pieces::{Piece, write_numbered, write_pieces};

/// Writes the line of a refused text of vectors.
pub(crate) fn write_vector_refusal<E: Sink>(
    refusal: VectorRefusal,
    notes: &mut E,
) -> Result<(), Failed>
    ensures written { WritesText (E.taken notes.old) (E.taken notes.new) (E.faults notes.old) (E.faults notes.new) result (vector_line refusal) }
    ensures unflushed { IsFalse (E.flushed notes.new) }
{
    match refusal {
        VectorRefusal::BadLine(line) => write_numbered(
            b"vectors: line ",
            line,
            b": bad line\n",
            notes,
        ),
        VectorRefusal::Truncated => write_all(notes, b"vectors: truncated\n"),
        VectorRefusal::Limit(quantity) => write_limit(quantity, notes),
        VectorRefusal::NoMemory => write_all(notes, b"no memory\n"),
    }
}

/// Writes the line of a script that doesn't fit, with its cycle and its phase.
pub(crate) fn write_script_fault<E: Sink>(
    cycle: u32,
    phase: Phase,
    fault: ScriptFault,
    notes: &mut E,
) -> Result<(), Failed>
    ensures written { WritesText (E.taken notes.old) (E.taken notes.new) (E.faults notes.old) (E.faults notes.new) result (script_line cycle phase fault) }
    ensures unflushed { IsFalse (E.flushed notes.new) }
{
    let (before, number, between, last) = fault_pieces(fault);
    let pieces = [
        Piece::Text(b"script: cycle "),
        Piece::Number(cycle as u64),
        phase_piece(phase),
        before,
        number,
        between,
        last,
        Piece::Text(b"\n"),
    ];
    write_pieces(&pieces, notes)
}

fn phase_piece(phase: Phase) -> Piece<'static>
    ensures { piece_text result ≡ phase_text phase }
{
    match phase {
        Phase::Excite => Piece::Text(b" excite: "),
        Phase::Relax => Piece::Text(b" relax: "),
    }
}

/// What is wrong with a script.
fn fault_pieces(
    fault: ScriptFault,
) -> (
    Piece<'static>,
    Piece<'static>,
    Piece<'static>,
    Piece<'static>,
)
    ensures { piece_text result.0 ++ (piece_text result.1 ++ (piece_text result.2 ++ piece_text result.3)) ≡ script_text fault }
{
    match fault {
        ScriptFault::NotPending { at, wire } => (
            Piece::Text(b"delivery "),
            Piece::Number(at as u64),
            Piece::Text(b": no pulse on wire "),
            Piece::Number(wire.number() as u64),
        ),
        ScriptFault::Short { left } => (
            Piece::Text(b""),
            Piece::Number(left as u64),
            Piece::Text(b" pulses left"),
            Piece::Text(b""),
        ),
    }
}
