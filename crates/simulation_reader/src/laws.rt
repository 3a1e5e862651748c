//! Laws of inputs.

ghost use Rattle.simulation_reader.specs.Laws.{EarlyStands, InputsHaveTheirForm, LongShows, RefusalsAreOfBytes};

/// A refusal that the first bytes of an input show stays shown, and is its judgement.
pub fn early_refusals_stand()
    ensures { EarlyStands }
{
    netlist_reader::early_refusals_stand();
    schedule_replay::early_refusals_stand();
}

/// The vectors of an input have a bit for each input port of its netlist, and no script has more than 134,217,728 wires.
pub fn inputs_have_their_form()
    ensures { InputsHaveTheirForm }
{
    schedule_replay::texts_have_their_form();
}

/// An input of more bytes than a netlist's text and a text of vectors may have shows a refusal.
pub fn long_inputs_are_refused()
    ensures { LongShows }
{}

/// No judgement is want of memory: what refuses an input is a line, its end or a limit.
pub fn refusals_are_of_bytes()
    ensures { RefusalsAreOfBytes }
{}
