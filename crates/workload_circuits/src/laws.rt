//! What is true of every made circuit. These functions do nothing: their clauses are the laws.

ghost use Rattle.workload_circuits.specs.Counting.{CountersCount};
ghost use Rattle.workload_circuits.specs.Laws.{CountersFit, CountersAreFounded, CountersAreNotRefused};

use source_machine::one_verdict;

/// A counter of up to 4,096 bits has all its numbers in range and is well founded, so that grounding it
/// fails only for want of memory.
pub fn counters_are_founded()
    ensures fits { CountersFit }
    ensures founded { CountersAreFounded }
    ensures not_refused { CountersAreNotRefused }
{
    // This call does nothing: its clauses are the laws of refusals.
    one_verdict();
}

/// In each cycle of each run, the outputs of a counter are the number of earlier cycles in which its input was 1, in
/// binary, the lowest digit first, modulo 2 to the number of bits.
pub fn counters_count()
    ensures { CountersCount }
{}
