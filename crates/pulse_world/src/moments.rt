//! What the calls of a world are in a run, and on which wires they put pulses.

ghost use Rattle.pulse_world.specs.WorldMoments.{StartIsBeginning, ExciteIsOpened, RelaxIsOpened, PlaceIsDelivered};
ghost use Rattle.pulse_world.specs.WirePulses.{OpeningsPulse, OpeningsArePending, DeliveriesEmit, DeliveriesEmitBehind};

use cell_netlist::readers_of_wires;

/// A world at its start stands at the beginning of a run. Where it stands at a moment, the opening of a phase leads to
/// the moment at which the run opened it, and a delivery to the one at which the wire was delivered: the list of
/// what the phase delivered has grown by it.
pub fn moments_of_worlds()
    ensures start { StartIsBeginning }
    ensures excite { ExciteIsOpened }
    ensures relax { RelaxIsOpened }
    ensures delivery { PlaceIsDelivered }
{}

/// The wires that get a pulse. At an opening they are exactly those of input rails and of DROC outputs that pulse. At a
/// delivery they are among the outputs of the wire's one reader, and in a world's queue they stand at the last places,
/// from the one on that was the last before.
pub fn pulses_on_wires()
    ensures openings { OpeningsPulse }
    ensures opened { OpeningsArePending }
    ensures deliveries { DeliveriesEmit }
    ensures queue { DeliveriesEmitBehind }
{
    readers_of_wires();
}
