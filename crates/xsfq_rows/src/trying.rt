//! A run over ports in memory.

ghost use Rattle.std.specs.Prelude.{◌≤◌};

use crate::cases::Failing;
use anyhow::Result;
use byte_ports::{MemorySink, MemorySource};
use std::alloc::Global;
use xsfq_cli::run;

/// What a run left.
#[derive(Drop)]
pub(crate) struct Ran {
    pub(crate) code: u8,
    pub(crate) output: MemorySink,
    pub(crate) notes: MemorySink,
    /// How many bytes of the input were not read.
    pub(crate) left: usize,
}

/// Runs these words over ports that move at most so many bytes a call, whose calls of these numbers fail.
pub(crate) fn run_with(
    alloc: Global,
    words: &[String],
    input: &[u8],
    step: usize,
    failing: &Failing,
) -> Result<Ran>
    requires { 1 ≤ step }
{
    let mut input = MemorySource::new(input.to_vec(alloc)?, step, failing.reads.clone()?);
    let writes = failing.writes.clone()?;
    let mut output = MemorySink::with_flush(alloc, step, writes, failing.flushes.clone()?);
    let mut notes = MemorySink::new(alloc, step, failing.notes.clone()?);
    let outcome = run(alloc, words, &mut input, &mut output, &mut notes);
    Ok(Ran {
        code: outcome.code(),
        output,
        notes,
        left: input.left().len(),
    })
}
