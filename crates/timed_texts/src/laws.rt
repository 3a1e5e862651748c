//! Laws of timings. Each stands on a function that calls the laws below it and does nothing.

ghost use Rattle.timed_texts.specs.Laws.{PhasesWithinBound, OneTiming, OneTimedText};

use pulse_world::pulses_on_wires;
use timed_world::{one_bound, one_timed_phase, times_within_bound};

/// No phase of a timing of a sound netlist takes longer than the bound.
pub fn phases_within_bound()
    ensures { PhasesWithinBound }
{
    times_within_bound();
    pulses_on_wires();
}

/// A sound netlist, vectors and delays have one timing: the times of all phases, the bound's time and the path. So they
/// have one text.
pub fn one_timing()
    ensures timing { OneTiming }
    ensures text { OneTimedText }
{
    one_timed_phase();
    one_bound();
}
