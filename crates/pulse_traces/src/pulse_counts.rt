//! How many deliveries cycles make, and how many output rails pulse in their excites.

ghost use Rattle.std.specs.Prelude.{◌≡◌, ◌≤◌, ◌^◌, List, length, replicate};
ghost use Rattle.cell_netlist.specs.declared.lines.Rail.{Rail};
ghost use Rattle.schedule_replay.specs.Orders.{IsBetween};
ghost use Rattle.pulse_traces.specs.CycleCounts.{CountsCycles, pulses_in};
ghost use Rattle.pulse_traces.specs.Rooms.{HasRooms, ShowsCycle};
ghost use Rattle.pulse_traces.specs.Simulations.{Follows};

use crate::cycles::{CycleRoom, make_cycle};
use crate::orders::DeliveryOrder;
use pulse_world::World;
use schedule_replay::{Choose, Chooser};

/// How many deliveries some cycles make, and how many output rails pulse in their excites.
#[derive(Clone, Copy, Debug, PartialEq, Eq)]
pub struct PulseCounts {
    /// The deliveries in both phases of all cycles.
    pub deliveries: u64,
    /// The pulses of output rails in the excites of all cycles.
    pub ones: u64,
}

/// How many output rails pulsed in the excite of the cycle in the room.
fn excite_pulses(room: &CycleRoom) -> u32
    ensures { (rails : List Rail) → ShowsCycle rails room.now → result ≡ pulses_in rails room.now.excite.log.wires }
{
    room.excite.pulses
}

/// Makes so many cycles of a vector, and counts their pulses.
pub(crate) fn count_cycles<F: Fn(u64, u64) -> u64 + Choose>(
    order: DeliveryOrder,
    world: &mut World<'_>,
    chooser: &Chooser<F>,
    vector: &[bool],
    cycles: u32,
    room: &mut CycleRoom,
) -> PulseCounts
    requires order { Follows (F.Choose.names chooser.now) order }
    requires between { IsBetween world.old }
    requires width { length vector.now ≡ world.old.net.inputs }
    requires few { cycles ≤ 2 ^ 14 }
    requires room { HasRooms world.old.net room.old }
    ensures { CountsCycles order world.old (replicate cycles vector.now) result }
{
    let mut deliveries = 0u64;
    let mut ones = 0u64;
    for _number in 0..cycles {
        deliveries = make_cycle(world, chooser, deliveries, vector, room);
        ones += excite_pulses(room) as u64;
    }
    PulseCounts { deliveries, ones }
}
