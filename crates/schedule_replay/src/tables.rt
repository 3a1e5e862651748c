//! What the lines of a text of vectors said so far.

ghost use Rattle.std.specs.Prelude.{◌≡◌, ◌≤◌, ◌<◌, ◌+◌, ◌^◌, [], Some, Ok, Err, OnOk, IfErr, IfOk, IsTrue, ◌↔◌, true, codes, length, if◌then◌else◌};
ghost use Rattle.std.specs.Str.{bytes_eq};
ghost use Rattle.schedule_replay.specs.declared.refusals.VectorRefusal.TheVariants as refusals;
ghost use Rattle.schedule_replay.specs.declared.vector_lines.Due.TheVariants as dues;
ghost use Rattle.schedule_replay.specs.VectorLines.{vector_of, script_in};
ghost use Rattle.schedule_replay.specs.VectorTexts.{end_refusal};
ghost use Rattle.schedule_replay.specs.Tables.{first_table, table_bad, passed_by, after_vector, head_read, added_read, vector_read, script_read, line_read, IsBounded, OrMemory};

use crate::refusals::VectorRefusal;
use crate::vector_lines::{Due, Form, keep_script, keep_vector};
use flat_lists::FlatLists;
use pulse_ids::{Quantity, WireId};
use std::alloc::Global;

/// What is due next, how many lines were read, and what they said.
#[derive(Debug, Drop)]
pub struct Table {
    pub(crate) due: Due,
    pub(crate) place: u32,
    pub(crate) vectors: FlatLists<bool>,
    pub(crate) scripts: FlatLists<WireId>,
}

fn is_head(line: &[u8]) -> bool
    ensures { result ≡ bytes_eq line.now (codes "vectors") }
{
    line == b"vectors".as_slice()
}

fn is_stop(line: &[u8]) -> bool
    ensures { result ≡ bytes_eq line.now (codes "stop") }
{
    line == b"stop".as_slice()
}

/// What is due after a vector.
fn after_vector(form: Form) -> Due
    ensures { result ≡ after_vector form.scripted }
{
    if form.scripted {
        Due::Excite
    } else {
        Due::Vector
    }
}

impl Table {
    /// Before the first line. It takes no memory.
    pub(crate) fn new(alloc: Global) -> Table
        ensures { result ≡ first_table }
    {
        Table {
            due: Due::Head,
            place: 0,
            vectors: FlatLists::new(alloc),
            scripts: FlatLists::new(alloc),
        }
    }

    /// Whether `stop` was read.
    pub(crate) fn has_stop(&self) -> bool
        ensures { IsTrue result ↔ (self.now.due ≡ dues.Nothing) }
    {
        self.due == Due::Nothing
    }

    /// The refusal of the line that comes next.
    pub(crate) fn bad_line(&self, form: Form) -> VectorRefusal
        requires before { form.before ≤ 2 ^ 27 }
        requires place { self.now.place ≤ 2 ^ 27 }
        ensures { result ≡ table_bad form self.now }
    {
        VectorRefusal::BadLine(form.before + self.place + 1)
    }

    /// Why a byte above the limit is refused.
    pub(crate) fn past_limit(&self, form: Form) -> VectorRefusal
        requires before { form.before ≤ 2 ^ 27 }
        requires place { self.now.place ≤ 2 ^ 27 }
        ensures { end_refusal (form.before + self.now.place + 1) self.now.due [] true ≡ Some result }
    {
        match self.due {
            Due::Nothing => self.bad_line(form),
            _ => VectorRefusal::Limit(Quantity::TailBytes),
        }
    }

    /// One more line was read.
    fn pass(&mut self, due: Due)
        requires { self.old.place < 2 ^ 27 }
        ensures { self.new ≡ passed_by due self.old }
    {
        self.due = due;
        self.place += 1;
    }

    /// Reads the first line.
    fn read_head(&mut self, form: Form, line: &[u8]) -> Result<(), VectorRefusal>
        requires before { form.before ≤ 2 ^ 27 }
        requires place { self.old.place < 2 ^ 27 }
        ensures ok { OnOk result (head_read form self.old line.now ≡ Ok self.new) }
        ensures err { IfErr result (λ refusal. OrMemory refusal (head_read form self.old line.now ≡ Err refusal)) }
    {
        if is_head(line) {
            self.pass(Due::Vector);
            Ok(())
        } else {
            Err(self.bad_line(form))
        }
    }

    /// Reads the line of a vector.
    fn add_vector(&mut self, form: Form, line: &[u8]) -> Result<(), VectorRefusal>
        requires before { form.before ≤ 2 ^ 27 }
        requires place { self.old.place < 2 ^ 27 }
        requires begun { self.old.vectors.begun ≡ [] }
        ensures ok { OnOk result (added_read form self.old (vector_of form.inputs line.now) ≡ Ok self.new) }
        ensures err { IfErr result (λ refusal. OrMemory refusal (added_read form self.old (vector_of form.inputs line.now) ≡ Err refusal)) }
    {
        let room = (self.vectors.len() as u64) < Quantity::Vectors.greatest();
        if !keep_vector(&mut self.vectors, form.inputs, line)? {
            return Err(self.bad_line(form));
        }
        if !room {
            return Err(VectorRefusal::Limit(Quantity::Vectors));
        }
        self.pass(after_vector(form));
        Ok(())
    }

    /// Reads a line where a vector or `stop` is due.
    fn read_vector(&mut self, form: Form, line: &[u8]) -> Result<(), VectorRefusal>
        requires before { form.before ≤ 2 ^ 27 }
        requires place { self.old.place < 2 ^ 27 }
        requires begun { self.old.vectors.begun ≡ [] }
        ensures ok { OnOk result (vector_read form self.old line.now ≡ Ok self.new) }
        ensures err { IfErr result (λ refusal. OrMemory refusal (vector_read form self.old line.now ≡ Err refusal)) }
    {
        if is_stop(line) {
            self.pass(Due::Nothing);
            Ok(())
        } else {
            self.add_vector(form, line)
        }
    }

    /// Reads the line of a script, after which this is due.
    fn read_script(&mut self, form: Form, line: &[u8], next: Due) -> Result<(), VectorRefusal>
        requires before { form.before ≤ 2 ^ 27 }
        requires place { self.old.place < 2 ^ 27 }
        requires begun { self.old.scripts.begun ≡ [] }
        ensures ok { OnOk result (script_read form next self.old (script_in line.now) ≡ Ok self.new) }
        ensures err { IfErr result (λ refusal. OrMemory refusal (script_read form next self.old (script_in line.now) ≡ Err refusal)) }
    {
        if !keep_script(&mut self.scripts, line)? {
            return Err(self.bad_line(form));
        }
        self.pass(next);
        Ok(())
    }

    /// Reads the next line.
    pub(crate) fn read(&mut self, form: Form, line: &[u8]) -> Result<(), VectorRefusal>
        requires bounded { IsBounded form self.old }
        requires place { self.old.place < 2 ^ 27 }
        ensures ok { OnOk result (line_read form self.old line.now ≡ Ok self.new) }
        ensures err { IfErr result (λ refusal. OrMemory refusal (line_read form self.old line.now ≡ Err refusal)) }
    {
        match self.due {
            Due::Head => self.read_head(form, line),
            Due::Vector => self.read_vector(form, line),
            Due::Excite => self.read_script(form, line, Due::Relax),
            Due::Relax => self.read_script(form, line, Due::Vector),
            Due::Nothing => Err(self.bad_line(form)),
        }
    }
}
