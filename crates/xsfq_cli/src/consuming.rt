//! Inputs that are read whole by readers that take pieces.

ghost use Rattle.std.specs.Prelude.{◌≡◌, ◌<◌, ◌≤◌, ◌^◌, ◌++◌, [], ℕ, List, Option, Result, None, OnOk, length};
ghost use Rattle.run_outcomes.specs.declared.outcomes.Outcome.{Outcome};
ghost use Rattle.xsfq_cli.specs.Answering.{IsEarly, IsOrNoMemory, Tells};
ghost use Rattle.xsfq_cli.specs.Halves.{Reads, TakesWhole};
ghost use Rattle.xsfq_cli.specs.Table.{input_of};

use byte_ports::Source;
use run_outcomes::Outcome;

/// A reader that takes pieces of an input, and tells as soon as it can that the bytes are refused.
pub(crate) trait Consumer {
    /// What it makes of all the bytes.
    type Whole: Drop;

    /// The bytes so far are these.
    ghost reads: { List ℕ → Self → Type 0 };

    /// The refusal that bytes show, whatever follows them.
    ghost shows: { List ℕ → Option Outcome };

    /// What all the bytes are judged to be.
    ghost judges: { List ℕ → Result Self.Whole Outcome → Type 0 };

    /// The greatest number of bytes that may show none.
    ghost most: { ℕ };

    /// Takes the next piece, and answers the refusal that the bytes so far show.
    fn feed(&mut self, piece: &[u8]) -> Result<(), Outcome>
        ensures read { OnOk result ((text : List ℕ) → reads text self.old → reads (text ++ piece.now) self.new) }
        ensures early { (text : List ℕ) → reads text self.old → Tells (shows (text ++ piece.now)) result };

    /// What the bytes are, where the input ends.
    fn finish(self) -> Result<Self::Whole, Outcome>
        ensures { (text : List ℕ) → reads text self → shows text ≡ None → IsOrNoMemory (judges text) result };

    /// No bytes show no refusal.
    ghost quiet: { shows [] ≡ None };

    /// More than the greatest number show one, which is not beyond counting.
    ghost counted: { most ≤ 2 ^ 32 };

    ghost limited: { (text : List ℕ) → most < length text → shows text ≡ None → ⊥ };
}

/// Feeds a reader until the input ends, fails or is refused. It alone reads.
fn take_all<S: Source, C: Consumer>(input: &mut S, reader: &mut C) -> Result<(), Outcome>
    requires fresh { C.reads [] reader.old }
    requires early { IsEarly C.shows C.judges }
    ensures { TakesWhole C.shows C.judges C.reads reader.new (input_of S.left S.faults input.old input.new) result }
{
    let mut taken: usize = 0;
    let mut piece = [0u8; 4096];
    loop {
        let count = match input.read(&mut piece) {
            Ok(count) => count,
            Err(_) => return Err(Outcome::ReadFault),
        };
        if count == 0 {
            return Ok(());
        }
        match reader.feed(&piece[..count]) {
            Ok(()) => taken += count,
            Err(outcome) => return Err(outcome),
        }
    }
}

/// Reads an input whole, and answers what its bytes are.
pub(crate) fn read_whole<S: Source, C: Consumer + Drop>(
    input: &mut S,
    reader: C,
) -> Result<C::Whole, Outcome>
    requires fresh { C.reads [] reader }
    requires early { IsEarly C.shows C.judges }
    ensures { Reads C.shows C.judges (input_of S.left S.faults input.old input.new) result }
{
    let mut reader = reader;
    match take_all(input, &mut reader) {
        Ok(()) => reader.finish(),
        Err(outcome) => Err(outcome),
    }
}
