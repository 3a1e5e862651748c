//! Laws of netlist texts, each on a function with an empty body.

ghost use Rattle.netlist_reader.specs.Laws.{EarlyStands, TextsAreRead, OnlyTextsAreRead};

/// A refusal that the first bytes of a text show stays shown, and is its verdict.
pub fn early_refusals_stand()
    ensures { EarlyStands }
{}

/// The verdict of a netlist's text with any bytes after it is that netlist and those bytes, and no other text has a
/// netlist as its verdict.
pub fn texts_are_read()
    ensures read { TextsAreRead }
    ensures only { OnlyTextsAreRead }
{}
