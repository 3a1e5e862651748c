//! What holds under every order of deliveries. These functions do nothing: their clauses are the laws.

ghost use Rattle.pulse_world.specs.EveryOrder.{RailsToBits, OrderLaw, BitLaw, FollowLaw};
ghost use Rattle.pulse_world.specs.LaterMoments.{MomentsLeadOn, WholeRunExists, EveryRunGoesOn, NextPhaseOpens, WholeRunEnds};
ghost use Rattle.pulse_world.specs.PulsesPerCycle.{WholeRunsHaveCycles, OncePerCycle, LinkPerCycle, OutputsReadNoLink, GatesReadNoLink};
ghost use Rattle.pulse_world.specs.RailPulses.{RailLaw};
ghost use Rattle.pulse_world.specs.WithoutCells.{OrderLawWithoutCells, RunExistsWithoutCells, BitLawWithoutCells};

/// A sound netlist pulses as its rail equations say. Under every order no delivery is an upset, each phase
/// settles after at most one pulse a wire, and then each output rail has pulsed in the phase of its bit. So the
/// netlist delivers the bits that a run of the equations gives at its output rails.
///
/// From each moment deliveries lead on to a settled one. A phase delivers exactly the wires of the netlist that are
/// due in it, a wire has at most one pulse pending, and after relax the cells keep the next state.
///
/// `rails` is all of this in one record, with `whole_runs` and `pulses_per_cycle`: on each list of vectors the equations have
/// a run, the pulses are those of every run of them, and they can be brought to the end of all vectors.
pub fn every_order()
    ensures rails { RailLaw }
    ensures delivers { OrderLaw }
    ensures bits { BitLaw }
    ensures follows { FollowLaw }
{}

/// A sound netlist has a whole run on any vectors, which takes each of them through both phases, and from every
/// moment each of its runs goes on to a whole one. Where a phase is settled the next one can be opened while a
/// vector's phase is left; after a whole run nothing follows. A whole run passes through the cycle of each vector: a
/// moment at which its excite is settled, and a later one at which its relax is.
pub fn whole_runs()
    ensures lead_on { MomentsLeadOn }
    ensures exists { WholeRunExists }
    ensures goes_on { EveryRunGoesOn }
    ensures opens { NextPhaseOpens }
    ensures ends { WholeRunEnds }
    ensures cycles { WholeRunsHaveCycles }
{}

/// In each cycle of each run of a sound netlist a wire is delivered once, in excite or in relax, unless it is the
/// link of a front and its back, which is delivered once, twice or never. No output rail, LA, FA or splitter reads a
/// link.
pub fn pulses_per_cycle()
    ensures plain { OncePerCycle }
    ensures link { LinkPerCycle }
    ensures outputs { OutputsReadNoLink }
    ensures gates { GatesReadNoLink }
{}

/// A netlist delivers the bits of its output ports where it delivers the bits of its wires, and the wire of
/// each output rail has the bit of the rail's port with the rail's sign.
pub fn rails_to_bits()
    ensures bits { RailsToBits }
{}

/// The same as `every_order` of a sound netlist without cells, which delivers the bits of each output rail to
/// which an input rail on the same wire gives them.
pub fn every_order_without_cells()
    ensures delivers { OrderLawWithoutCells }
    ensures run_exists { RunExistsWithoutCells }
    ensures bits { BitLawWithoutCells }
{}
