//! Runs in which each call of a port fails in its turn.

ghost use Rattle.std.specs.Prelude.{◌≤◌};

use crate::cases::{Call, Failing, Turns};
use crate::trying::{Ran, run_with};
use anyhow::Result;
use std::alloc::Global;

/// The call of this number and kind fails.
fn failing_call(alloc: Global, call: Call, number: u64) -> Result<Failing> {
    let mut failing = Failing::none(alloc);
    let numbers = match call {
        Call::Read => &mut failing.reads,
        Call::Write => &mut failing.writes,
        Call::Flush => &mut failing.flushes,
        Call::Note => &mut failing.notes,
    };
    numbers.push(number)?;
    Ok(failing)
}

/// Whether two runs came to the same.
fn are_same(one: &Ran, other: &Ran) -> bool {
    one.code == other.code
        && one.output.taken() == other.output.taken()
        && one.output.flushed() == other.output.flushed()
        && one.notes.taken() == other.notes.taken()
}

/// Whether a run tells that a call of this kind failed: by code 7 and nothing written, or by code 8 and a beginning of
/// what the whole run writes; a note that fails changes only the note.
fn is_told(call: Call, ran: &Ran, whole: &Ran) -> bool {
    let output = ran.output.taken();
    match call {
        Call::Read => ran.code == 7
            && ran.notes.taken() == b"read failed\n".as_slice()
            && output.len() == 0,
        Call::Write | Call::Flush => {
            ran.code == 8
                && ran.notes.taken() == b"write failed\n".as_slice()
                && whole.output.taken().starts_with(output)
                && !ran.output.flushed()
        }
        Call::Note => {
            ran.code == whole.code
                && output == whole.output.taken()
                && ran.output.flushed() == whole.output.flushed()
                && whole.notes.taken().starts_with(ran.notes.taken())
        }
    }
}

/// More calls than any case makes.
const MOST_CALLS: u64 = 1_000_000;

/// How many calls of a kind a run makes, each of which is told where it fails. There is none where one is not told.
fn told_calls(
    alloc: Global,
    words: &[String],
    input: &[u8],
    step: usize,
    call: Call,
    whole: &Ran,
) -> Result<Option<u64>>
    requires { 1 ≤ step }
{
    for number in 0..MOST_CALLS {
        let failing = failing_call(alloc, call, number)?;
        let ran = run_with(alloc, words, input, step, &failing)?;
        if are_same(&ran, whole) {
            return Ok(Some(number));
        }
        if !is_told(call, &ran, whole) {
            return Ok(None);
        }
    }
    Ok(None)
}

/// Whether each of the calls is told where it fails, and as many are made as the turns say, or else at least one.
pub(crate) fn are_told(
    alloc: Global,
    words: &[String],
    input: &[u8],
    step: usize,
    turns: Turns,
    whole: &Ran,
) -> Result<bool>
    requires { 1 ≤ step }
{
    let calls = told_calls(alloc, words, input, step, turns.call, whole)?;
    Ok(match turns.count {
        Some(count) => calls == Some(count),
        None => calls.is_some_and(|calls| calls > 0),
    })
}
