//! Laws of sources, each on a function with an empty body.

ghost use Rattle.aiger_reader.specs.Laws.{EarlyStands};

/// A refusal that the first bytes of a source show stays shown, and is its verdict.
pub fn early_refusals_stand()
    ensures { EarlyStands }
{}
