//! The timing of a netlist on vectors.

ghost use Rattle.std.specs.Prelude.{◌≡◌, Bool, List, IfOk, length};
ghost use Rattle.pulse_ids.specs.Lists.{IsIn};
ghost use Rattle.timed_texts.specs.Timings.{TimedBy};

use crate::cycles::{PhaseTimes, time_cycles};
use crate::laws::phases_within_bound;
use cell_netlist::SoundNet;
use pulse_ids::NoMemory;
use schedule_replay::Vectors;
use std::alloc::Global;
use std::marker::Model;
use timed_world::{Bound, Delay, Delays, Kind, bound};

/// How long the phases of each cycle take, and the bound that none of them exceeds.
#[derive(Debug, Drop)]
pub struct Timing {
    cycles: Vec<PhaseTimes>,
    bound: Bound,
}

impl Model for Timing {
    ghost use Rattle.timed_texts.specs.Timings.{PlainTiming, timing_of};

    ghost Value = { PlainTiming };

    ghost view = { λ timing. timing_of timing.cycles.items timing.bound };
}

impl Timing {
    /// The timing of a netlist on vectors, one bit an input port, by the delays of the kinds of cells: the times of the
    /// phases of each cycle from the netlist's start, and the netlist's bound, which each of these times is at most. A
    /// delivery takes time logarithmic in the number of wires. It fails only for want of memory.
    pub fn new<F: Fn(Kind) -> u64 + Delay>(
        alloc: Global,
        net: &SoundNet,
        vectors: &Vectors,
        delays: &Delays<F>,
    ) -> Result<Timing, NoMemory>
        requires { (vector : List Bool) → IsIn vector vectors.now.vectors → length vector ≡ net.now.inputs }
        ensures { IfOk result (λ timing. TimedBy (F.Delay.gives delays.now) net.now vectors.now.vectors timing) }
    {
        phases_within_bound();
        delays.one_answer();
        let _ = net.net();
        let cycles = time_cycles(alloc, net, vectors, delays)?;
        let bound = bound(alloc, net, delays)?;
        Ok(Timing { cycles, bound })
    }

    /// How long the phases of each cycle take, in the order of the vectors.
    pub fn cycles(&self) -> &[PhaseTimes]
        ensures { result.now ≡ self.now.cycles }
    {
        self.cycles.as_slice()
    }

    /// The bound.
    pub fn bound(&self) -> &Bound
        ensures { result.now ≡ self.now.bound }
    {
        &self.bound
    }
}
