//! The note of an outcome, and the flush after it.

ghost use Rattle.std.specs.Prelude.{◌<◌, ◌-◌, ◌^◌};
ghost use Rattle.xsfq_cli.specs.Table.{Noted, output_of};

use byte_ports::Sink;
use run_outcomes::{Outcome, write_outcome_line};

/// Writes the note of an outcome, if it has one, and flushes it. It takes no memory, and what fails here is passed
/// over.
pub(crate) fn write_note<E: Sink>(outcome: &Outcome, notes: &mut E)
    requires { E.faults notes.old < 2 ^ 64 - 1 }
    ensures { Noted (output_of E.taken E.faults E.flushed notes.old notes.new) outcome.now }
{
    if let Outcome::Done = outcome {
        return;
    }
    if write_outcome_line(outcome, notes).is_ok() {
        let _ = notes.flush();
    }
}
