//! What is true of every text that is written from parts. This function does nothing: its clauses are the laws.

ghost use Rattle.source_texts.specs.Laws.{SourceTextsAreRead, SourceMachinesFit};

/// The text of parts in range is judged to be the machine of the parts, whatever is chosen for latches without a first bit, and
/// the machine is in range.
pub fn source_texts_are_read()
    ensures read { SourceTextsAreRead }
    ensures fit { SourceMachinesFit }
{}
