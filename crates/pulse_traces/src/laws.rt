//! Laws of simulations, each on a function that calls the laws below it and does nothing.

ghost use Rattle.pulse_traces.specs.EveryOrder.{SimulatedInWorld, ReplayedInWorld, SimulatedSaysBits, ReplayedSaysBits, FaultlessIsWhole, OrdersAgree, ScriptsAgree, SimulationsExist, ReplaysExist, OneSimulation, OneReplayed, OneCount};

use pulse_world::{every_order, moments_of_worlds, whole_runs};
use schedule_replay::{cycles_of_orders, deliveries_in_turn};

/// Every order, and every script that ends without a fault, gives a sound netlist's simulation without a trace the same
/// lines: those of the bits that a run of its rail equations carries. The cycles are those of the world's definition, and
/// a character tells how often the output rail counted there.
pub fn every_order_says_the_same()
    ensures simulated { SimulatedInWorld }
    ensures replayed { ReplayedInWorld }
    ensures order_says { SimulatedSaysBits }
    ensures script_says { ReplayedSaysBits }
    ensures faultless { FaultlessIsWhole }
    ensures orders { OrdersAgree }
    ensures scripts { ScriptsAgree }
{
    every_order();
    whole_runs();
}

/// A sound netlist, not of too many wires, can be simulated on all vectors of its width, in every order and by all scripts.
pub fn simulations_exist()
    ensures ordered { SimulationsExist }
    ensures scripted { ReplaysExist }
{
    cycles_of_orders();
    schedule_replay::one_replay();
    schedule_replay::scripts_end();
    deliveries_in_turn();
    moments_of_worlds();
}

/// An order gives a netlist and vectors one list of cycles, and so one text, with a trace too.
pub fn one_simulation()
    ensures { OneSimulation }
{
    cycles_of_orders();
}

/// Scripts give a sound netlist one list of cycles up to the first fault, and one fault or none.
pub fn one_replay()
    ensures { OneReplayed }
{
    schedule_replay::one_replay();
    deliveries_in_turn();
    moments_of_worlds();
}

/// The pulses of a simulation have one pair of counts.
pub fn one_count()
    ensures { OneCount }
{
    cycles_of_orders();
}
