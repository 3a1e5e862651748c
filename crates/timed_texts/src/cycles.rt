//! The cycles of a timed simulation.

ghost use Rattle.std.specs.Prelude.{◌≡◌, ◌≤◌, Bool, List, IfOk, OnOk, length};
ghost use Rattle.cell_netlist.specs.Netlists.{number_of_wires};
ghost use Rattle.pulse_ids.specs.Lists.{IsIn};
ghost use Rattle.pulse_world.specs.Worlds.{state_of};
ghost use Rattle.schedule_replay.specs.Orders.{IsBetween};
ghost use Rattle.timed_texts.specs.TimedCycles.{TimesCycleBy, TimesCyclesBy};

use cell_netlist::SoundNet;
use pulse_ids::NoMemory;
use pulse_world::World;
use schedule_replay::{Log, Vectors};
use std::alloc::Global;
use timed_world::{Delay, Delays, Kind, Times, timed_phase};

/// How long the phases of a cycle take, in picoseconds: the time of the last delivery, or 0 without one.
#[derive(Clone, Copy, Debug, PartialEq, Eq)]
pub struct PhaseTimes {
    /// That of excite.
    pub excite: u64,
    /// That of relax.
    pub relax: u64,
}

/// Makes a cycle by the delays, and answers how long its phases take.
fn time_cycle<F: Fn(Kind) -> u64 + Delay>(
    net: &SoundNet,
    world: &mut World<'_>,
    delays: &Delays<F>,
    vector: &[bool],
    times: &mut Times,
    log: &mut Log,
) -> Result<PhaseTimes, NoMemory>
    requires world { world.old.net ≡ net.now }
    requires between { IsBetween world.old }
    requires width { length vector.now ≡ net.now.inputs }
    requires times { times.old.room ≡ number_of_wires net.now }
    requires room { number_of_wires net.now ≤ log.old.room }
    ensures timed { IfOk result (λ phases. TimesCycleBy (F.Delay.gives delays.now) net.now (state_of world.old) vector.now phases (state_of world.new)) }
    ensures world { world.new.net ≡ net.now }
    ensures between { OnOk result (IsBetween world.new) }
    ensures times { times.new.room ≡ times.old.room }
    ensures log { log.new.room ≡ log.old.room }
{
    delays.one_answer();
    world.begin_excite(vector);
    let excite = timed_phase(net, world, delays, times, log)?;
    world.begin_relax();
    let relax = timed_phase(net, world, delays, times, log)?;
    Ok(PhaseTimes { excite, relax })
}

/// Makes a cycle for each vector, from the start of a netlist, and answers how long their phases take.
pub(crate) fn time_cycles<F: Fn(Kind) -> u64 + Delay>(
    alloc: Global,
    net: &SoundNet,
    vectors: &Vectors,
    delays: &Delays<F>,
) -> Result<Vec<PhaseTimes>, NoMemory>
    requires { (vector : List Bool) → IsIn vector vectors.now.vectors → length vector ≡ net.now.inputs }
    ensures { IfOk result (λ cycles. TimesCyclesBy (F.Delay.gives delays.now) net.now vectors.now.vectors cycles.items) }
{
    let mut world = World::new(alloc, net)?;
    let mut times = Times::new(alloc, net)?;
    let mut log = Log::new(alloc, net)?;
    let mut cycles = Vec::with_capacity(alloc, vectors.len() as usize)?;
    let _ = world.phase();
    for number in 0..vectors.len() {
        let vector = vectors.vector(number);
        let phases = time_cycle(net, &mut world, delays, vector, &mut times, &mut log)?;
        cycles.push_reserved(phases);
    }
    Ok(cycles)
}
