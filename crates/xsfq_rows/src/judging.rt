//! Cases beside their runs: what differs is told, a line each.

ghost use Rattle.std.specs.Prelude.{◌≤◌};

use crate::cases::{Case, Wanted};
use crate::escapes::add_escaped;
use crate::trying::{Ran, run_with};
use crate::turns::are_told;
use anyhow::{Result, bail};
use sha2::{Digest, Sha256};
use std::alloc::Global;

/// How many runs are as wanted, and how many are not.
#[derive(Clone, Copy)]
pub(crate) struct Tally {
    pub(crate) passed: u64,
    pub(crate) failed: u64,
}

/// Whether an output is the wanted one: the whole of it, or its beginning, its end, its size and its digest.
fn is_wanted_output(output: &[u8], wanted: &Wanted) -> bool {
    if wanted.size.is_none() && wanted.digest.is_none() && wanted.end.is_empty() {
        return output == wanted.output.as_slice();
    }
    wanted.size.is_none_or(|size| size == output.len())
        && wanted
            .digest
            .is_none_or(|digest| digest == Sha256::digest(output))
        && output.starts_with(&wanted.output)
        && output.ends_with(&wanted.end)
}

/// Whether a run is as wanted. The output is flushed where a command was carried out, and behind the fault of a script.
fn is_wanted(ran: &Ran, wanted: &Wanted) -> bool {
    ran.code == wanted.code
        && is_wanted_output(ran.output.taken(), wanted)
        && ran.notes.taken() == wanted.note.as_slice()
        && ran.output.flushed() == (wanted.code == 0 || wanted.code == 6)
        && wanted.left.is_none_or(|left| left == ran.left)
}

/// A line that tells a code, an output and notes.
fn add_told(code: u8, output: &[u8], notes: &[u8], text: &mut String) -> Result<()> {
    write!(text, "code {code}, output ({} bytes) \"", output.len())?;
    add_escaped(output, text)?;
    text.push_str("\", note \"")?;
    add_escaped(notes, text)?;
    text.push_str("\"")?;
    Ok(())
}

/// A run of a case: the words of its command line, the whole input, and how many bytes a port moves at most in a call.
#[derive(Clone, Copy)]
struct Attempt<'a> {
    words: &'a [String],
    input: &'a [u8],
    step: usize,
}

/// The beginning of a line on a run.
fn begun_line(alloc: Global, case: &Case, attempt: Attempt<'_>) -> Result<String> {
    let mut text = format!(in alloc; "{}: `", case.name)?;
    for word in attempt.words {
        text.push_str(word)?;
        text.push_str(" ")?;
    }
    write!(text, "` in pieces of {}: ", attempt.step)?;
    Ok(text)
}

/// A line that tells what was wanted and what came.
fn difference(alloc: Global, case: &Case, attempt: Attempt<'_>, ran: &Ran) -> Result<String> {
    let mut text = begun_line(alloc, case, attempt)?;
    let wanted = &case.wanted;
    text.push_str("wanted ")?;
    add_told(wanted.code, &wanted.output, &wanted.note, &mut text)?;
    text.push_str("; came ")?;
    add_told(ran.code, ran.output.taken(), ran.notes.taken(), &mut text)?;
    if !ran.output.flushed() {
        text.push_str(", not flushed")?;
    }
    write!(text, ", {} bytes not read", ran.left)?;
    Ok(text)
}

/// A line on the first kind of calls of which one that fails in its turn is not told, or whose number is another one.
fn wrong_turn(
    alloc: Global,
    case: &Case,
    attempt: Attempt<'_>,
    whole: &Ran,
) -> Result<Option<String>>
    requires { 1 ≤ attempt.step }
{
    for turns in &case.turns {
        if !are_told(
            alloc,
            attempt.words,
            attempt.input,
            attempt.step,
            *turns,
            whole,
        )? {
            let mut text = begun_line(alloc, case, attempt)?;
            text.push_str("calls that fail in their turn")?;
            return Ok(Some(text));
        }
    }
    Ok(None)
}

/// Makes a run, and answers the line that tells what differs.
fn judge_run(alloc: Global, case: &Case, attempt: Attempt<'_>) -> Result<(Ran, Option<String>)>
    requires { 1 ≤ attempt.step }
{
    let ran = run_with(
        alloc,
        attempt.words,
        attempt.input,
        attempt.step,
        &case.failing,
    )?;
    if !is_wanted(&ran, &case.wanted) {
        let line = difference(alloc, case, attempt, &ran)?;
        return Ok((ran, Some(line)));
    }
    let line = wrong_turn(alloc, case, attempt, &ran)?;
    Ok((ran, line))
}

/// What is counted, and the output of the run that was made last.
#[derive(Drop)]
struct Judge {
    tally: Tally,
    last: Vec<u8>,
}

impl Judge {
    /// Counts a run, and prints the line that tells what differs.
    fn count(&mut self, rt: &impl Print, line: Option<String>) -> Result<()> {
        match line {
            None => self.tally.passed = self.tally.passed.saturating_add(1),
            Some(line) => {
                self.tally.failed = self.tally.failed.saturating_add(1);
                println!(rt; "{line}")?;
            }
        }
        Ok(())
    }

    /// Makes the runs of a case with one command line, in pieces of each of its sizes.
    fn judge_command(
        &mut self,
        rt: &impl Print,
        alloc: Global,
        case: &Case,
        words: &[String],
        input: &[u8],
    ) -> Result<()> {
        let usual = [4096];
        let pieces = if case.pieces.is_empty() {
            usual.as_slice()
        } else {
            case.pieces.as_slice()
        };
        for piece in pieces {
            let step = usize::try_from(*piece).unwrap_or(usize::MAX);
            if step == 0 {
                bail!("{}: a piece has at least one byte", case.name);
            }
            let (ran, line) = judge_run(alloc, case, Attempt { words, input, step })?;
            self.count(rt, line)?;
            self.last = ran.output.taken().to_vec(alloc)?;
        }
        Ok(())
    }

    /// Makes the runs of a case.
    fn judge_case(&mut self, rt: &impl Print, alloc: Global, case: &Case) -> Result<()> {
        let input = input_of(alloc, case, &self.last)?;
        for words in &case.commands {
            self.judge_command(rt, alloc, case, words, &input)?;
        }
        Ok(())
    }
}

/// A text without so many of its last lines.
fn without_lines(text: &[u8], count: usize) -> &[u8] {
    let lines = text.iter().filter(|byte| **byte == b'\n').count();
    let mut kept = 0usize;
    for line in text
        .split_inclusive(|byte| *byte == b'\n')
        .take(lines.saturating_sub(count))
    {
        kept = kept.saturating_add(line.len());
    }
    text.get(..kept).unwrap_or(text)
}

/// The input of a case, where the run before wrote this.
fn input_of(alloc: Global, case: &Case, last: &[u8]) -> Result<Vec<u8>> {
    let mut input = Vec::new(alloc);
    if let Some(count) = case.piped {
        input.extend_from_slice(without_lines(last, count))?;
    }
    input.extend_from_slice(&case.input)?;
    Ok(input)
}

/// Makes the runs of all cases in their order.
pub(crate) fn judge_all(rt: &impl Print, alloc: Global, cases: &[Case]) -> Result<Tally> {
    let tally = Tally {
        passed: 0,
        failed: 0,
    };
    let last = Vec::new(alloc);
    let mut judge = Judge { tally, last };
    for case in cases {
        judge.judge_case(rt, alloc, case)?;
    }
    Ok(judge.tally)
}
