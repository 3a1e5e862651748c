//! Cycles in an order, and their text.

ghost use Rattle.std.specs.Prelude.{◌≡◌, ◌+◌, ◌<◌, ◌≤◌, ◌^◌, ℕ, List, Bool, IfOk, length};
ghost use Rattle.byte_ports.specs.Writing.{WritesText};
ghost use Rattle.pulse_ids.specs.Lists.{IsIn};
ghost use Rattle.schedule_replay.specs.Orders.{IsBetween, MakesCycle, named_by};
ghost use Rattle.pulse_traces.specs.Orders.{place_of};
ghost use Rattle.pulse_traces.specs.Rooms.{HasRooms, ShowsCycle, cycle_in, text_in};
ghost use Rattle.pulse_traces.specs.Simulations.{Follows, WritesCycles};

use crate::lines::{PhaseParts, write_cycle};
use crate::orders::DeliveryOrder;
use crate::rooms::{PhaseRoom, settle_phase};
use byte_ports::{Failed, Sink};
use cell_netlist::SoundNet;
use pulse_ids::NoMemory;
use pulse_world::World;
use schedule_replay::{Choose, Chooser, Vectors, cycles_of_orders};
use std::alloc::Global;

/// Room for both phases of a cycle.
#[derive(Debug, Drop)]
pub(crate) struct CycleRoom {
    pub(crate) excite: PhaseRoom,
    pub(crate) relax: PhaseRoom,
}

impl CycleRoom {
    /// Room for the cycles of a netlist. It takes all the memory that it ever has.
    pub(crate) fn new(alloc: Global, net: &SoundNet) -> Result<CycleRoom, NoMemory>
        ensures { IfOk result (λ room. HasRooms net.now room) }
    {
        Ok(CycleRoom {
            excite: PhaseRoom::new(alloc, net)?,
            relax: PhaseRoom::new(alloc, net)?,
        })
    }
}

/// Makes a cycle in the order of the function. Its deliveries, characters and numbers of pulses stand in the room
/// afterwards. It answers the next step.
pub(crate) fn make_cycle<F: Fn(u64, u64) -> u64 + Choose>(
    world: &mut World<'_>,
    chooser: &Chooser<F>,
    step: u64,
    vector: &[bool],
    room: &mut CycleRoom,
) -> u64
    requires between { IsBetween world.old }
    requires width { length vector.now ≡ world.old.net.inputs }
    requires step { step < 2 ^ 61 }
    requires room { HasRooms world.old.net room.old }
    ensures made { MakesCycle (F.Choose.names chooser.now) step world.old (cycle_in vector.now room.new) world.new }
    ensures next { result ≡ step + length room.new.excite.log.wires + length room.new.relax.log.wires }
    ensures few { result ≤ step + 2 ^ 23 }
    ensures shows { ShowsCycle world.old.net.output_rails room.new }
    ensures room { HasRooms world.old.net room.new }
    ensures between { IsBetween world.new }
    ensures net { world.new.net ≡ world.old.net }
{
    world.begin_excite(vector);
    let middle = settle_phase(world, chooser, step, &mut room.excite);
    world.begin_relax();
    settle_phase(world, chooser, middle, &mut room.relax)
}

/// Writes the text of the cycle in the room.
fn write_room<K: Sink>(
    out: &mut K,
    trace: bool,
    number: u32,
    room: &CycleRoom,
) -> Result<(), Failed>
    ensures { WritesText (K.taken out.old) (K.taken out.new) (K.faults out.old) (K.faults out.new) result (text_in trace number room.now) }
{
    let excite = PhaseParts {
        wires: room.excite.log.wires(),
        digits: room.excite.digits.as_slice(),
    };
    let relax = PhaseParts {
        wires: room.relax.log.wires(),
        digits: room.relax.digits.as_slice(),
    };
    write_cycle(out, trace, number, excite, relax)
}

/// Makes a cycle for each vector and writes its text.
pub(crate) fn write_cycles<F: Fn(u64, u64) -> u64 + Choose, K: Sink>(
    order: DeliveryOrder,
    world: &mut World<'_>,
    chooser: &Chooser<F>,
    vectors: &Vectors,
    trace: bool,
    room: &mut CycleRoom,
    out: &mut K,
) -> Result<(), Failed>
    requires order { Follows (F.Choose.names chooser.now) order }
    requires between { IsBetween world.old }
    requires width { (vector : List Bool) → IsIn vector vectors.now.vectors → length vector ≡ world.old.net.inputs }
    requires room { HasRooms world.old.net room.old }
    ensures { WritesCycles order trace world.old vectors.now.vectors (K.taken out.old) (K.taken out.new) (K.faults out.old) (K.faults out.new) result }
{
    cycles_of_orders();
    let mut step = 0u64;
    for number in 0..vectors.len() {
        let next = make_cycle(world, chooser, step, vectors.vector(number), room);
        write_room(out, trace, number, room)?;
        step = next;
    }
    Ok(())
}
