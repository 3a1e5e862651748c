//! What is true of every text that is read back. This function does nothing: its clauses are the laws.

ghost use Rattle.extracted_sources.specs.Laws.{ExtractsAreRead, ExtractsAreNetlists};

use extracted_machines::{extracts_are_founded, extracts_pulse};

/// The text of a sound netlist within the limits is judged to be the netlist's machine, which is in range and well founded, and in every
/// run of the netlist, in whatever order pulses arrive, its output rails pulse as the outputs of that machine say.
pub fn extracts_are_read()
    ensures read { ExtractsAreRead }
    ensures netlists { ExtractsAreNetlists }
{
    extracts_are_founded();
    extracts_pulse();
}
