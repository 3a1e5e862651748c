//! What is true of every counter's text. This function does nothing: its clauses are the laws.

ghost use Rattle.counter_sources.specs.Sources.{CountersAreRead, OneBitIsWritten};

/// A counter of up to 4,096 bits is the machine that its text in ASCII AIGER 1.9 is judged to be.
pub fn counters_are_read()
    ensures read { CountersAreRead }
    ensures one_bit { OneBitIsWritten }
{}
