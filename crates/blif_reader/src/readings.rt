//! A source that was read up to some byte.

ghost use Rattle.std.specs.Prelude.{◌≡◌, ◌≤◌, ◌<◌, ◌+◌, ◌-◌, ◌++◌, ℕ, List, Some, None, min, length, [], Ok, Err};
ghost use Rattle.source_machine.specs.declared.unset.Unset.{Unset};
ghost use Rattle.word_scan.specs.Lines.{next_number};
ghost use Rattle.blif_reader.specs.declared.refusals.BlifRefusal.{BlifRefusal};
ghost use Rattle.blif_reader.specs.Sources.{limit, early};
ghost use Rattle.blif_reader.specs.Bounds.{IsBounded};
ghost use Rattle.blif_reader.specs.Readings.{HasRead, HasStopped, IsSafe, IsReading, CanGoOn, Answers, HasAnswered, KeepsAnswer, AnswersAgain};

use crate::pieces::take_piece;
use crate::refusals::BlifRefusal;
use crate::states::State;
use pulse_ids::Quantity;
use source_machine::Unset;
use std::alloc::Global;
use word_scan::{Lines, Logical};

const LIMIT: usize = 67_108_864;

/// The choice of unset latches, the physical and the logical line that have begun, what was built, the number of bytes
/// up to the limit, and why reading stopped.
#[derive(Debug, Drop)]
pub struct Reading {
    pub(crate) unset: Unset,
    pub(crate) lines: Lines,
    pub(crate) logical: Logical,
    pub(crate) state: State,
    pub(crate) taken: usize,
    pub(crate) stopped: Option<BlifRefusal>,
}

/// Takes a piece, where so many bytes may still come, and answers why it stopped, if it did.
fn read_on(
    alloc: Global,
    unset: Unset,
    lines: &mut Lines,
    logical: &mut Logical,
    state: &mut State,
    piece: &[u8],
    room: usize,
) -> Option<BlifRefusal>
    requires room { room ≤ limit }
    requires bounded { IsBounded state.old }
    requires few { next_number lines.old + room ≤ limit + 1 }
    ensures fine { CanGoOn result lines.new state.new (limit - room + min (length piece.now) room) }
    ensures read { (text : List ℕ) → length text ≡ limit - room → HasRead unset text lines.old logical.old state.old
        → HasStopped unset (text ++ piece.now) result lines.new logical.new state.new }
{
    let within = piece.len().min(room);
    match take_piece(alloc, unset, lines, logical, state, &piece[..within]) {
        Err(refusal) => Some(refusal),
        Ok(()) if room < piece.len() => Some(BlifRefusal::Limit(Quantity::SourceBytes)),
        Ok(()) => None,
    }
}

/// Takes a piece, or the bytes of it up to the limit.
pub(crate) fn take_more(alloc: Global, reading: &mut Reading, piece: &[u8])
    requires { IsSafe reading.old }
    ensures safe { IsSafe reading.new }
    ensures choice { reading.new.unset ≡ reading.old.unset }
    ensures read { (unset : Unset) (text : List ℕ) → IsReading unset text reading.old → IsReading unset (text ++ piece.now) reading.new }
    ensures again { (refusal : BlifRefusal) → HasAnswered reading.old refusal → HasAnswered reading.new refusal }
{
    let room = LIMIT - reading.taken;
    reading.taken += piece.len().min(room);
    match &reading.stopped {
        Some(_) => {}
        None => {
            reading.stopped = read_on(
                alloc,
                reading.unset,
                &mut reading.lines,
                &mut reading.logical,
                &mut reading.state,
                piece,
                room,
            );
        }
    }
}

impl Reading {
    /// Before the first byte. It takes no memory.
    pub(crate) fn new(alloc: Global, unset: Unset) -> Reading
        ensures safe { IsSafe result }
        ensures read { IsReading unset [] result }
    {
        Reading {
            unset,
            lines: Lines::new(alloc),
            logical: Logical::new(alloc),
            state: State::new(alloc),
            taken: 0,
            stopped: None,
        }
    }

    /// The refusal that the bytes so far show. Where memory is refused to copy its name, that is the refusal from now
    /// on.
    pub(crate) fn answer(&mut self) -> Result<(), BlifRefusal>
        requires { IsSafe self.old }
        ensures safe { IsSafe self.new }
        ensures choice { self.new.unset ≡ self.old.unset }
        ensures read { (unset : Unset) (text : List ℕ) → IsReading unset text self.old → IsReading unset text self.new }
        ensures early { (unset : Unset) (text : List ℕ) → IsReading unset text self.old → Answers result (early unset text) }
        ensures kept { KeepsAnswer result self.new }
        ensures again { (refusal : BlifRefusal) → HasAnswered self.old refusal → AnswersAgain result refusal }
    {
        let Some(refusal) = &self.stopped else {
            return Ok(());
        };
        match refusal.copied() {
            Ok(copy) => Err(copy),
            Err(_) => {
                self.stopped = Some(BlifRefusal::NoMemory);
                Err(BlifRefusal::NoMemory)
            }
        }
    }
}
