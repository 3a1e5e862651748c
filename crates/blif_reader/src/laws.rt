//! Laws of sources, each on a function with an empty body.

ghost use Rattle.blif_reader.specs.Laws.{EarlyStands, RefusalsAreTold, SourcesAreTold, VerdictsAreTold};

/// A refusal that the first bytes of a source show stays shown, and is its verdict.
pub fn early_refusals_stand()
    ensures { EarlyStands }
{}

/// What logical lines build is what their words tell: the nets are the names in the order in which they first appear,
/// the ports the words of their lines, each equation the rows under its `.names` line, each latch the words of its
/// line, the clock the first name of one, the end an `.end` line, the size that of the rows. The first line that is
/// refused refuses them all. A source that is judged to be a machine is the one that its lines tell, and no judgement is
/// want of memory.
pub fn sources_are_told()
    ensures { SourcesAreTold }
{}

/// When a line is refused is told by words: after lines none of which is refused, the refusal of a line is told by the
/// words of those lines and its own. So the first refusal of lines, and what the first bytes of a text show, are told
/// without any state of a reader.
pub fn refusals_are_told()
    ensures { RefusalsAreTold }
{}

/// What a text is judged to be is told by words: where no line is refused, the whole is for want of a model, or for its
/// clock, which stands in a row, as input of a latch or in `.outputs`, or is made by an equation or a latch, or stands
/// neither in `.inputs` nor in `.clock`; else the text is what its lines tell.
pub fn verdicts_are_told()
    ensures { VerdictsAreTold }
{}
