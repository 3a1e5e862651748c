//! Laws of deliveries, each on a function with an empty body or one that calls the laws below it.

ghost use Rattle.schedule_replay.specs.Settling.{DeliveriesKeep, DeliveriesAreFew};
ghost use Rattle.schedule_replay.specs.Replaying.{OneReplay, ScriptsEnd};
ghost use Rattle.schedule_replay.specs.Orders.{OneList, OrdersSettle, CyclesThere, OneListOfCycles};
ghost use Rattle.schedule_replay.specs.Laws.{EarlyStands, TextsHaveTheirForm};

use cell_netlist::{equation_runs, readers_of_wires};
use pulse_world::{every_order, moments_of_worlds};

/// Deliveries one after the other lead from a world to a world of the same netlist in the same phase with the same
/// vector, and there are no more of them than wires.
pub fn deliveries_in_turn()
    ensures keep { DeliveriesKeep }
    ensures few { DeliveriesAreFew }
{
    moments_of_worlds();
    every_order();
    equation_runs();
}

/// What comes of a script, and the world after it, are fixed by the world before.
pub fn one_replay()
    ensures { OneReplay }
{
    moments_of_worlds();
    every_order();
    equation_runs();
}

/// From every world a script has an outcome.
pub fn scripts_end()
    ensures { ScriptsEnd }
{
    moments_of_worlds();
    every_order();
    equation_runs();
    readers_of_wires();
}

/// An order names one of the pending pulses at each step. Its deliveries settle each phase; they are one list, with one
/// world after it. So on any vectors there are all cycles, and they are one list too.
pub fn cycles_of_orders()
    ensures one { OneList }
    ensures settle { OrdersSettle }
    ensures cycles { CyclesThere }
    ensures one_cycles { OneListOfCycles }
{
    deliveries_in_turn();
    moments_of_worlds();
    every_order();
    equation_runs();
    readers_of_wires();
}

/// A refusal that the first bytes of a text of vectors show stays shown, and is its judgement.
pub fn early_refusals_stand()
    ensures { EarlyStands }
{}

/// The vectors of a text have the width that was asked for, and there are two scripts for each of them, or none where
/// there are no scripts. No script has more than 134,217,728 wires.
pub fn texts_have_their_form()
    ensures { TextsHaveTheirForm }
{}
