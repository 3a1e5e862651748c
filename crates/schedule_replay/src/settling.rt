//! Deliveries in an order until nothing is pending.

ghost use Rattle.std.specs.Prelude.{◌≡◌, ◌<◌, ◌≤◌, ◌+◌, ◌^◌, [], length};
ghost use Rattle.cell_netlist.specs.Netlists.{number_of_wires};
ghost use Rattle.schedule_replay.specs.Settling.{DeliversNamed, DeliversInTurn, Keeps};

use crate::choosers::{Choose, Chooser};
use crate::laws::deliveries_in_turn;
use crate::logs::Log;
use core::mem::replace_with;
use pulse_ids::WireId;
use pulse_world::World;

/// Delivers the pulse at the place that the function answers for the next step, where so many deliveries were made, and
/// answers its wire. Something is pending.
#[tactic(auto, using(crate::proofs::Turns::named_delivery))]
#[inline(always)]
fn deliver_next<F: Fn(u64, u64) -> u64 + Choose>(
    world: &mut World<'_>,
    chooser: &Chooser<F>,
    start: u64,
    made: u32,
) -> WireId
    requires start { start < 2 ^ 62 }
    requires some { 0 < length world.old.queue }
    ensures { DeliversNamed (F.Choose.names chooser.now) (start + made) world.old world.new result.number }
{
    let count = world.pending_len();
    let place = chooser.pick(start + made as u64, count as u64);
    world.deliver_at(place as u32)
}

/// Delivers from a world until nothing is pending, by a function from a step on, and answers the world then, and the log
/// with the wires of the deliveries. It owns both, so that they need not be looked for at each delivery.
fn settled<'a, F: Fn(u64, u64) -> u64 + Choose>(
    mut world: World<'a>,
    chooser: &Chooser<F>,
    start: u64,
    mut log: Log,
) -> (World<'a>, Log)
    requires start { start < 2 ^ 62 }
    requires room { number_of_wires world.net ≤ log.room }
    ensures delivers { DeliversInTurn (F.Choose.names chooser.now) start world.entry result.1.wires result.0 }
    ensures settled { result.0.queue ≡ [] }
    ensures few { length result.1.wires ≤ number_of_wires world.entry.net }
    ensures narrow { length result.1.wires ≤ 2 ^ 22 }
    ensures room { result.1.room ≡ log.room }
    ensures keeps { Keeps world.entry result.0 }
{
    deliveries_in_turn();
    log.clear();
    let _ = world.phase();
    while world.pending_len() > 0 {
        let wire = deliver_next(&mut world, chooser, start, log.len());
        log.append(wire);
    }
    (world, log)
}

/// The same, with all but the world in one.
fn settled_by<'a, F: Fn(u64, u64) -> u64 + Choose>(
    world: World<'a>,
    task: (&Chooser<F>, u64, Log),
) -> (World<'a>, Log)
    requires start { task.1 < 2 ^ 62 }
    requires room { number_of_wires world.net ≤ task.2.room }
    ensures delivers { DeliversInTurn (F.Choose.names task.entry.0.now) task.entry.1 world.entry result.1.wires result.0 }
    ensures settled { result.0.queue ≡ [] }
    ensures few { length result.1.wires ≤ number_of_wires world.entry.net }
    ensures narrow { length result.1.wires ≤ 2 ^ 22 }
    ensures room { result.1.room ≡ task.entry.2.room }
    ensures keeps { Keeps world.entry result.0 }
{
    let (chooser, start, log) = task;
    settled(world, chooser, start, log)
}

/// Delivers until nothing is pending. The k-th delivery from 0 is of the place that the function answers for the step
/// `start + k` and the number of pulses that are pending then. What stood in the log before is given up, and the wires
/// of the deliveries stand in it. The answer is their number, which is at most the number of wires. The world is then
/// one of the same netlist in the same phase.
///
/// `start` is below 2^62, and the log has room for as many wires as the netlist has. Each delivery takes constant time,
/// and nothing takes memory.
pub fn settle<F: Fn(u64, u64) -> u64 + Choose>(
    world: &mut World<'_>,
    chooser: &Chooser<F>,
    start: u64,
    log: &mut Log,
) -> u32
    requires start { start < 2 ^ 62 }
    requires room { number_of_wires world.old.net ≤ log.old.room }
    ensures delivers { DeliversInTurn (F.Choose.names chooser.now) start world.old log.new.wires world.new }
    ensures settled { world.new.queue ≡ [] }
    ensures count { result ≡ length log.new.wires }
    ensures few { result ≤ number_of_wires world.old.net }
    ensures narrow { result ≤ 2 ^ 22 }
    ensures room { log.new.room ≡ log.old.room }
    ensures keeps { Keeps world.old world.new }
{
    let room = log.taken();
    *log = replace_with(world, (chooser, start, room), settled_by);
    log.len()
}
