//! The reader of vectors.

use crate::readings::{Reading, take_more};
use crate::refusals::VectorRefusal;
use crate::vector_lines::Form;
use crate::vectors::Vectors;
use std::alloc::Global;
use std::marker::Model;

/// A reader of a text of vectors that comes in pieces of any size.
///
/// The text is the line `vectors`, then for each vector `v` directly followed by a digit for each input port, then
/// `stop`. With scripts each vector is followed by two lines, `deliver` and for each delivery one space and the number
/// of its wire: the script of excite, and the script of relax. After a refusal every further call answers the same
/// refusal. The reader's tables grow with the lines.
#[derive(Debug, Drop)]
pub struct VectorReader {
    reading: Reading,
}

impl Model for VectorReader {
    ghost use Rattle.schedule_replay.specs.declared.readings.Reading.{Reading};

    ghost Value = { Reading };

    ghost view = { λ reader. reader.reading };

    ghost use Rattle.schedule_replay.specs.Readings.{IsSafe};

    ghost invariant = { λ reader. IsSafe reader.reading };
}

impl VectorReader {
    ghost use Rattle.std.specs.Prelude.{◌≡◌, ◌≤◌, ◌^◌, ◌++◌, [], ℕ, List, Err};
    ghost use Rattle.schedule_replay.specs.declared.refusals.VectorRefusal.{VectorRefusal};
    ghost use Rattle.schedule_replay.specs.declared.refusals.VectorRefusal.TheVariants.{NoMemory};
    ghost use Rattle.schedule_replay.specs.declared.vector_lines.Form.{Form};
    ghost use Rattle.schedule_replay.specs.VectorTexts.{early, judgement};
    ghost use Rattle.schedule_replay.specs.Readings.{IsReading, Answers, HasAnswered, KeepsAnswer, IsVerdict};

    /// Before the first byte of a text with vectors of so many bits, with scripts or without, after which lines are
    /// numbered from `before + 1` on. `before` is at most 134,217,728. It takes no memory.
    pub fn new(alloc: Global, inputs: u32, scripted: bool, before: u32) -> VectorReader
        requires { before ≤ 2 ^ 27 }
        ensures { IsReading (record { inputs = inputs; scripted = scripted; before = before }) [] result }
    {
        VectorReader {
            reading: Reading::new(
                alloc,
                Form {
                    inputs,
                    scripted,
                    before,
                },
            ),
        }
    }

    /// Takes the next piece, and answers the first refusal that the bytes so far show: that of the first whole line
    /// that doesn't fit or is a vector too many, a byte after `stop`, or the limit of 134,217,728 bytes. It takes
    /// linear time.
    pub fn feed(&mut self, piece: &[u8]) -> Result<(), VectorRefusal>
        ensures read { (form : Form) (text : List ℕ) → IsReading form text self.old → IsReading form (text ++ piece.now) self.new }
        ensures early { (form : Form) (text : List ℕ) → IsReading form text self.old → Answers result (early form (text ++ piece.now)) }
        ensures kept { KeepsAnswer result self.new }
        ensures again { (refusal : VectorRefusal) → HasAnswered self.old refusal → result ≡ Err refusal }
    {
        take_more(&mut self.reading, piece);
        self.reading.answer()
    }

    /// The vectors and scripts of the bytes, or why there are none: their first refusal, or `Truncated`, which comes
    /// from here alone. It takes no memory: `NoMemory` comes only where it was answered before.
    pub fn finish(self) -> Result<Vectors, VectorRefusal>
        ensures verdict { (form : Form) (text : List ℕ) → IsReading form text self → IsVerdict result (judgement form text) }
        ensures again { (refusal : VectorRefusal) → HasAnswered self refusal → result ≡ Err refusal }
        ensures no_memory { result ≡ Err NoMemory → HasAnswered self NoMemory }
    {
        self.reading.finish()
    }
}
