//! The reader of AIGER sources.

use crate::finishing::finished;
use crate::readings::{Reading, take_more};
use crate::refusals::AigerRefusal;
use source_machine::{Machine, Unset};
use std::alloc::Global;
use std::marker::Model;

/// A reader of a source that comes in pieces of any size.
///
/// A source that begins with `aig ` is binary AIGER 1.9, and any other is judged as ASCII. After a
/// refusal every further call answers the same refusal. A reader keeps no more bytes than one unit
/// has, and its tables grow with the units that stand.
#[derive(Debug, Drop)]
pub struct AigerReader {
    alloc: Global,
    reading: Reading,
}

impl Model for AigerReader {
    ghost use Rattle.aiger_reader.specs.declared.readings.Reading.{Reading};

    ghost Value = { Reading };

    ghost view = { λ reader. reader.reading };

    ghost use Rattle.aiger_reader.specs.Readings.{IsSafe};

    ghost invariant = { λ reader. IsSafe reader.reading };
}

impl AigerReader {
    ghost use Rattle.std.specs.Prelude.{◌≡◌, ◌++◌, [], ℕ, List, Ok, Err, IfOk, IfErr};
    ghost use Rattle.source_machine.specs.declared.unset.Unset.{Unset};
    ghost use Rattle.source_machine.specs.declared.unset.Unset.TheVariants.{Refuse};
    ghost use Rattle.aiger_reader.specs.Sources.{early, judgement, IsVerdictOf};
    ghost use Rattle.aiger_reader.specs.Readings.{IsReading, Answers, OrMemory, HasAnswered, KeepsAnswer};
    ghost use Rattle.aiger_reader.specs.declared.refusals.AigerRefusal.{AigerRefusal};

    /// Before the first byte; a latch that is reset to itself is refused. It takes no memory.
    pub fn new(alloc: Global) -> AigerReader
        ensures { IsReading Refuse [] result }
    {
        AigerReader::with(alloc, Unset::Refuse)
    }

    /// Before the first byte, with this choice for latches that are reset to themselves. It takes no
    /// memory.
    pub fn with(alloc: Global, unset: Unset) -> AigerReader
        ensures { IsReading unset [] result }
    {
        AigerReader {
            alloc,
            reading: Reading::new(alloc, unset),
        }
    }

    /// Takes the next piece, and answers the first refusal that the bytes so far show: that of the
    /// first line or delta that stands whole and is refused, or the limit of 67,108,864 bytes. It
    /// answers none while fewer than four bytes were taken. It takes linear time.
    pub fn feed(&mut self, piece: &[u8]) -> Result<(), AigerRefusal>
        ensures choice { self.new.unset ≡ self.old.unset }
        ensures read { (unset : Unset) (text : List ℕ) → IsReading unset text self.old → IsReading unset (text ++ piece.now) self.new }
        ensures early { (unset : Unset) (text : List ℕ) → IsReading unset text self.old → Answers result (early unset (text ++ piece.now)) }
        ensures kept { KeepsAnswer result self.new }
        ensures again { (refusal : AigerRefusal) → HasAnswered self.old refusal → result ≡ Err refusal }
    {
        take_more(self.alloc, &mut self.reading, piece);
        self.reading.answer()
    }

    /// The machine of the bytes, or why there is none: the refusal of the first unit that is refused,
    /// where the end closes the last line, else what only the end shows, and else the machine's own
    /// first fault. Want of memory may come in place of a machine or of a fault that holds a name.
    pub fn finish(self) -> Result<Machine, AigerRefusal>
        ensures again { (refusal : AigerRefusal) → HasAnswered self refusal → result ≡ Err refusal }
        ensures machine { IfOk result (λ machine. (unset : Unset) (text : List ℕ) → IsReading unset text self → IsVerdictOf (judgement unset text) (Ok machine)) }
        ensures refusal { IfErr result (λ refusal. (unset : Unset) (text : List ℕ) → IsReading unset text self → OrMemory refusal (IsVerdictOf (judgement unset text) (Err refusal))) }
    {
        finished(self.alloc, self.reading)
    }
}
