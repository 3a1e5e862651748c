//! A source that was read up to some byte.

ghost use Rattle.std.specs.Prelude.{◌≡◌, ◌≤◌, ◌<◌, ◌+◌, ◌-◌, ◌++◌, ℕ, List, min, length, [], Ok, Err};
ghost use Rattle.source_machine.specs.declared.unset.Unset.{Unset};
ghost use Rattle.aiger_reader.specs.declared.refusals.AigerRefusal.{AigerRefusal};
ghost use Rattle.aiger_reader.specs.Sources.{limit, early};
ghost use Rattle.aiger_reader.specs.Readings.{HasRead, IsFine, IsSafe, IsReading, CanGoOn, HasStopped, Answers, HasAnswered, KeepsAnswer};

use crate::built::Built;
use crate::pieces::take_piece;
use crate::refusals::{AigerRefusal, Stop};
use source_machine::Unset;
use std::alloc::Global;

const LIMIT: usize = 67_108_864;

/// The choice of unset latches, the unit that has begun, what was built, the number of bytes up to
/// the limit, and why reading stopped.
#[derive(Debug, Drop)]
pub struct Reading {
    pub(crate) unset: Unset,
    pub(crate) begun: Vec<u8>,
    pub(crate) built: Built,
    pub(crate) taken: usize,
    pub(crate) stopped: Option<Stop>,
}

/// Takes a piece, where so many bytes may still come, and answers why it stopped, if it did.
fn read_on(
    alloc: Global,
    unset: Unset,
    begun: &mut Vec<u8>,
    built: &mut Built,
    piece: &[u8],
    room: usize,
) -> Option<Stop>
    requires room { room ≤ limit }
    requires fine { IsFine begun.old.items built.old }
    requires start { built.old.start + length begun.old.items ≡ limit - room }
    ensures fine { CanGoOn result begun.new.items built.new (limit - room + min (length piece.now) room) }
    ensures read { (text : List ℕ) → length text ≡ limit - room → HasRead unset text begun.old.items built.old
        → HasStopped unset (text ++ piece.now) result begun.new.items built.new }
{
    let within = piece.len().min(room);
    match take_piece(alloc, unset, begun, built, &piece[..within]) {
        Err(stop) => Some(stop),
        Ok(()) if room < piece.len() => Some(Stop::TooLong),
        Ok(()) => None,
    }
}

/// Takes a piece, or the bytes of it up to the limit.
pub(crate) fn take_more(alloc: Global, reading: &mut Reading, piece: &[u8])
    requires { IsSafe reading.old }
    ensures safe { IsSafe reading.new }
    ensures choice { reading.new.unset ≡ reading.old.unset }
    ensures read { (unset : Unset) (text : List ℕ) → IsReading unset text reading.old → IsReading unset (text ++ piece.now) reading.new }
    ensures again { (refusal : AigerRefusal) → HasAnswered reading.old refusal → HasAnswered reading.new refusal }
{
    let room = LIMIT - reading.taken;
    reading.taken += piece.len().min(room);
    match reading.stopped {
        Some(_) => {}
        None => {
            reading.stopped = read_on(
                alloc,
                reading.unset,
                &mut reading.begun,
                &mut reading.built,
                piece,
                room,
            );
        }
    }
}

impl Reading {
    /// Before the first byte.
    pub(crate) fn new(alloc: Global, unset: Unset) -> Reading
        ensures safe { IsSafe result }
        ensures read { IsReading unset [] result }
    {
        Reading {
            unset,
            begun: Vec::new(alloc),
            built: Built::new(alloc),
            taken: 0,
            stopped: None,
        }
    }

    /// The refusal that the bytes so far show.
    pub(crate) fn answer(&self) -> Result<(), AigerRefusal>
        ensures early { (unset : Unset) (text : List ℕ) → IsReading unset text self.now → Answers result (early unset text) }
        ensures kept { KeepsAnswer result self.now }
        ensures again { (refusal : AigerRefusal) → HasAnswered self.now refusal → result ≡ Err refusal }
    {
        if self.taken < 4 {
            return Ok(());
        }
        match self.stopped {
            Some(stop) => Err(stop.refusal()),
            None => Ok(()),
        }
    }
}
