//! The reader of BLIF sources.

use crate::finishing::finished;
use crate::readings::{Reading, take_more};
use crate::refusals::BlifRefusal;
use source_machine::{Machine, Unset};
use std::alloc::Global;
use std::marker::Model;

/// A reader of a BLIF source that comes in pieces of any size.
///
/// A logical line that lies in one piece is read there and not copied. After a refusal every further call answers the
/// same refusal, but that want of memory may come in place of one that holds a name, and then stands.
#[derive(Debug, Drop)]
pub struct BlifReader {
    alloc: Global,
    reading: Reading,
}

impl Model for BlifReader {
    ghost use Rattle.blif_reader.specs.declared.readings.Reading.{Reading};

    ghost Value = { Reading };

    ghost view = { λ reader. reader.reading };

    ghost use Rattle.blif_reader.specs.Readings.{IsSafe};

    ghost invariant = { λ reader. IsSafe reader.reading };
}

impl BlifReader {
    ghost use Rattle.std.specs.Prelude.{◌≡◌, ◌++◌, [], ℕ, List, Ok, Err, IfOk, IfErr};
    ghost use Rattle.source_machine.specs.declared.unset.Unset.{Unset};
    ghost use Rattle.source_machine.specs.declared.unset.Unset.TheVariants.{Refuse};
    ghost use Rattle.blif_reader.specs.Sources.{early, judgement, IsVerdictOf};
    ghost use Rattle.blif_reader.specs.Readings.{IsReading, Answers, OrMemory, HasAnswered, KeepsAnswer, AnswersAgain};
    ghost use Rattle.blif_reader.specs.declared.refusals.BlifRefusal.{BlifRefusal};

    /// Before the first byte; a latch without a fixed first state is refused. It takes no memory.
    pub fn new(alloc: Global) -> BlifReader
        ensures { IsReading Refuse [] result }
    {
        BlifReader::with(alloc, Unset::Refuse)
    }

    /// Before the first byte, with this choice for latches without a fixed first state. It takes no memory.
    pub fn with(alloc: Global, unset: Unset) -> BlifReader
        ensures { IsReading unset [] result }
    {
        BlifReader {
            alloc,
            reading: Reading::new(alloc, unset),
        }
    }

    /// Takes the next piece, and answers the first refusal that the bytes so far show: that of the first logical line
    /// that stands whole and is refused, or the limit of 67,108,864 bytes. It takes time linear in the bytes, but for
    /// the logarithm of the number of names where many have one hash.
    pub fn feed(&mut self, piece: &[u8]) -> Result<(), BlifRefusal>
        ensures choice { self.new.unset ≡ self.old.unset }
        ensures read { (unset : Unset) (text : List ℕ) → IsReading unset text self.old → IsReading unset (text ++ piece.now) self.new }
        ensures early { (unset : Unset) (text : List ℕ) → IsReading unset text self.old → Answers result (early unset (text ++ piece.now)) }
        ensures kept { KeepsAnswer result self.new }
        ensures again { (refusal : BlifRefusal) → HasAnswered self.old refusal → AnswersAgain result refusal }
    {
        take_more(self.alloc, &mut self.reading, piece);
        self.reading.answer()
    }

    /// The machine of the bytes, or why there is none: the refusal of the first logical line that is refused, where the
    /// end closes the last one, else the first fault of the whole text. Want of memory may come in place of a machine or
    /// of a fault that holds a name.
    pub fn finish(self) -> Result<Machine, BlifRefusal>
        ensures again { (refusal : BlifRefusal) → HasAnswered self refusal → result ≡ Err refusal }
        ensures machine { IfOk result (λ machine. (unset : Unset) (text : List ℕ) → IsReading unset text self → IsVerdictOf (judgement unset text) (Ok machine)) }
        ensures refusal { IfErr result (λ refusal. (unset : Unset) (text : List ℕ) → IsReading unset text self → OrMemory refusal (IsVerdictOf (judgement unset text) (Err refusal))) }
    {
        finished(self.alloc, self.reading)
    }
}
