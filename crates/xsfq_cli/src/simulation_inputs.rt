//! Inputs that hold a netlist's text and vectors after it.

ghost use Rattle.std.specs.Prelude.{◌≡◌, [], Bool, true, false};
ghost use Rattle.simulation_reader.specs.Reading.{HasTaken};
ghost use Rattle.xsfq_cli.specs.Answering.{IsOrNoMemory};
ghost use Rattle.xsfq_cli.specs.Halves.{Reads};
ghost use Rattle.xsfq_cli.specs.Simulated.{HasInput, IsSoundInputOr, has_scripts, input_shown};
ghost use Rattle.xsfq_cli.specs.Table.{input_of};

use crate::consuming::{Consumer, read_whole};
use crate::netlists::judged;
use crate::orders::Schedule;
use byte_ports::Source;
use cell_netlist::SoundNet;
use run_outcomes::Outcome;
use schedule_replay::Vectors;
use simulation_reader::{SimulationInput, SimulationReader, early_refusals_stand};
use std::alloc::Global;

/// A sound netlist, and the vectors for it.
#[derive(Debug, Drop)]
pub(crate) struct SoundInput {
    /// The netlist.
    pub(crate) net: SoundNet,
    /// Its vectors, with their scripts, where there are some.
    pub(crate) vectors: Vectors,
}

/// Whether vectors have scripts, as a type.
pub(crate) trait VectorForm: Copy + Drop {
    ghost scripted: { Bool };

    /// Whether they have.
    fn scripted(self) -> bool
        ensures { result ≡ scripted };
}

/// Vectors alone.
#[derive(Clone, Copy, Debug, Drop)]
pub(crate) struct WithoutScripts;

/// Vectors with two scripts each.
#[derive(Clone, Copy, Debug, Drop)]
pub(crate) struct WithScripts;

impl VectorForm for WithoutScripts {
    ghost scripted = { false };

    fn scripted(self) -> bool {
        false
    }
}

impl VectorForm for WithScripts {
    ghost scripted = { true };

    fn scripted(self) -> bool {
        true
    }
}

/// A reader of a netlist's text and of vectors of this form.
#[derive(Drop)]
pub(crate) struct InputReader<F: VectorForm> {
    form: F,
    reader: SimulationReader,
}

impl<F: VectorForm> InputReader<F> {
    /// Before the first byte. It takes no memory.
    pub(crate) fn new(alloc: Global, form: F) -> InputReader<F>
        ensures { HasTaken F.scripted [] result.reader }
    {
        InputReader {
            form,
            reader: SimulationReader::new(alloc, form.scripted()),
        }
    }
}

impl<F: VectorForm> Consumer for InputReader<F> {
    ghost use Rattle.std.specs.Prelude.{◌+◌};
    ghost use Rattle.pulse_ids.specs.Quantities.{greatest_of};
    ghost use Rattle.pulse_ids.specs.declared.quantities.Quantity.TheVariants.{NetBytes, TailBytes};
    ghost use Rattle.simulation_reader.specs.Reading.{HasTaken};
    ghost use Rattle.xsfq_cli.specs.InputLimit.{input_bytes_counted, long_input_shown, no_input_quiet};
    ghost use Rattle.xsfq_cli.specs.Simulated.{SaysInput, input_shown};

    type Whole = SimulationInput;

    ghost reads = { λ text reader. HasTaken F.VectorForm.scripted text reader.reader };

    ghost shows = { input_shown F.VectorForm.scripted };

    ghost judges = { SaysInput F.VectorForm.scripted };

    ghost most = { greatest_of NetBytes + greatest_of TailBytes };

    fn feed(&mut self, piece: &[u8]) -> Result<(), Outcome> {
        match self.reader.feed(piece) {
            Ok(()) => Ok(()),
            Err(refusal) => Err(Outcome::from(refusal)),
        }
    }

    fn finish(self) -> Result<SimulationInput, Outcome> {
        match self.reader.finish() {
            Ok(input) => Ok(input),
            Err(refusal) => Err(Outcome::from(refusal)),
        }
    }

    ghost quiet = { no_input_quiet F.VectorForm.scripted };

    ghost counted = { input_bytes_counted };

    ghost limited = { long_input_shown F.VectorForm.scripted };
}

/// The vectors with the tables of their netlist's wires, or the first rule of soundness that the netlist breaks.
fn sound_input(alloc: Global, input: SimulationInput) -> Result<SoundInput, Outcome>
    ensures { IsOrNoMemory (IsSoundInputOr input) result }
{
    match judged(alloc, input.net) {
        Ok(net) => Ok(SoundInput {
            net,
            vectors: input.vectors,
        }),
        Err(outcome) => Err(outcome),
    }
}

/// Reads an input with vectors of a form, and checks its netlist.
fn read_form<S: Source, F: VectorForm>(
    alloc: Global,
    form: F,
    input: &mut S,
) -> Result<SoundInput, Outcome>
    ensures { Reads (input_shown F.scripted) (HasInput F.scripted) (input_of S.left S.faults input.old input.new) result }
{
    early_refusals_stand();
    match read_whole(input, InputReader::new(alloc, form)) {
        Ok(read) => sound_input(alloc, read),
        Err(outcome) => Err(outcome),
    }
}

/// Reads the input of a simulation by this schedule, and checks its netlist.
pub(crate) fn read_input<S: Source>(
    alloc: Global,
    schedule: Schedule,
    input: &mut S,
) -> Result<SoundInput, Outcome>
    ensures { Reads (input_shown (has_scripts schedule)) (HasInput (has_scripts schedule)) (input_of S.left S.faults input.old input.new) result }
{
    match schedule {
        Schedule::Order(_) => read_form(alloc, WithoutScripts, input),
        Schedule::Script => read_form(alloc, WithScripts, input),
    }
}
