//! A text of vectors that was read up to some byte.

ghost use Rattle.std.specs.Prelude.{◌≡◌, ◌≤◌, ◌<◌, ◌+◌, ◌-◌, ◌^◌, ◌++◌, ℕ, List, min, length, [], Ok, Err};
ghost use Rattle.schedule_replay.specs.declared.refusals.VectorRefusal.{VectorRefusal};
ghost use Rattle.schedule_replay.specs.declared.refusals.VectorRefusal.TheVariants.{NoMemory};
ghost use Rattle.schedule_replay.specs.declared.vector_lines.Form.{Form};
ghost use Rattle.schedule_replay.specs.VectorTexts.{limit, early, judgement};
ghost use Rattle.schedule_replay.specs.Readings.{HasReadLines, IsFine, IsSafe, IsReading, CanGoOn, HasStopped, Answers, HasAnswered, KeepsAnswer, IsVerdict};

use crate::pieces::take_piece;
use crate::refusals::VectorRefusal;
use crate::tables::Table;
use crate::vector_lines::Form;
use crate::vectors::Vectors;
use std::alloc::Global;
use word_scan::Lines;

const LIMIT: usize = 134_217_728;

/// The form of the text, its present line, what its lines said, the number of bytes up to the limit, and why it is
/// refused.
#[derive(Debug, Drop)]
pub struct Reading {
    pub(crate) form: Form,
    pub(crate) lines: Lines,
    pub(crate) table: Table,
    pub(crate) taken: usize,
    pub(crate) refused: Option<VectorRefusal>,
}

/// Takes a piece, where so many bytes may still come, and answers why the text is refused, if it is.
fn read_on(
    lines: &mut Lines,
    form: Form,
    table: &mut Table,
    piece: &[u8],
    room: usize,
) -> Option<VectorRefusal>
    requires room { room ≤ limit }
    requires fine { IsFine form lines.old table.old }
    requires place { table.old.place ≤ limit - room }
    ensures fine { CanGoOn result form lines.new table.new (limit - room + min (length piece.now) room) }
    ensures read { (text : List ℕ) → length text ≡ limit - room → HasReadLines form text lines.old table.old
        → HasStopped form (text ++ piece.now) result lines.new table.new }
{
    let within = piece.len().min(room);
    match take_piece(lines, form, table, &piece[..within]) {
        Err(refusal) => Some(refusal),
        Ok(()) if room < piece.len() => Some(table.past_limit(form)),
        Ok(()) => None,
    }
}

/// Takes a piece, or the bytes of it up to the limit.
pub(crate) fn take_more(reading: &mut Reading, piece: &[u8])
    requires { IsSafe reading.old }
    ensures safe { IsSafe reading.new }
    ensures read { (form : Form) (text : List ℕ) → IsReading form text reading.old → IsReading form (text ++ piece.now) reading.new }
    ensures again { (refusal : VectorRefusal) → HasAnswered reading.old refusal → HasAnswered reading.new refusal }
{
    let room = LIMIT - reading.taken;
    reading.taken += piece.len().min(room);
    match reading.refused {
        Some(_) => {}
        None => {
            reading.refused = read_on(
                &mut reading.lines,
                reading.form,
                &mut reading.table,
                piece,
                room,
            );
        }
    }
}

impl Reading {
    /// Before the first byte.
    pub(crate) fn new(alloc: Global, form: Form) -> Reading
        requires { form.before ≤ 2 ^ 27 }
        ensures safe { IsSafe result }
        ensures read { IsReading form [] result }
    {
        Reading {
            form,
            lines: Lines::new(alloc),
            table: Table::new(alloc),
            taken: 0,
            refused: None,
        }
    }

    /// The refusal that the bytes so far show.
    pub(crate) fn answer(&self) -> Result<(), VectorRefusal>
        requires { IsSafe self.now }
        ensures early { (form : Form) (text : List ℕ) → IsReading form text self.now → Answers result (early form text) }
        ensures kept { KeepsAnswer result self.now }
        ensures again { (refusal : VectorRefusal) → HasAnswered self.now refusal → result ≡ Err refusal }
    {
        match self.refused {
            Some(refusal) => Err(refusal),
            None => Ok(()),
        }
    }

    /// What the text says, or why it is refused.
    pub(crate) fn finish(self) -> Result<Vectors, VectorRefusal>
        requires { IsSafe self }
        ensures verdict { (form : Form) (text : List ℕ) → IsReading form text self → IsVerdict result (judgement form text) }
        ensures again { (refusal : VectorRefusal) → HasAnswered self refusal → result ≡ Err refusal }
        ensures no_memory { result ≡ Err NoMemory → HasAnswered self NoMemory }
    {
        match self.refused {
            Some(refusal) => Err(refusal),
            None => Vectors::of_table(self.table),
        }
    }
}
