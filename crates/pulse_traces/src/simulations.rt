//! A simulation: all its memory, the writing of its text, and the counts of its pulses.

ghost use Rattle.std.specs.Prelude.{◌≡◌, ◌<◌, ◌≤◌, ◌-◌, ◌^◌, List, Bool, IfOk, length, replicate};
ghost use Rattle.pulse_ids.specs.Ids.{WireId};
ghost use Rattle.pulse_ids.specs.Lists.{IsIn};
ghost use Rattle.schedule_replay.specs.Choosing.{AnswersBelow};
ghost use Rattle.schedule_replay.specs.Orders.{IsBetween};
ghost use Rattle.pulse_traces.specs.CycleCounts.{CountsSimulation};
ghost use Rattle.pulse_traces.specs.declared.orders.DeliveryOrder.TheVariants.{First, Last, Mix};
ghost use Rattle.pulse_traces.specs.Orders.{place_of};
ghost use Rattle.pulse_traces.specs.Rooms.{HasRooms};
ghost use Rattle.pulse_traces.specs.Scripts.{WritesReplay, scripted};
ghost use Rattle.pulse_traces.specs.Simulations.{Follows, WritesCycles, WritesSimulation};

use crate::cycles::{CycleRoom, write_cycles};
use crate::orders::DeliveryOrder;
use crate::pulse_counts::{PulseCounts, count_cycles};
use crate::scripts::{CycleFault, write_scripted};
use byte_ports::{Failed, Sink};
use cell_netlist::SoundNet;
use pulse_ids::NoMemory;
use pulse_world::World;
use schedule_replay::{Choose, Chooser, Vectors};
use std::alloc::Global;
use std::marker::Model;

/// The pulses of a sound netlist at its start, with all the memory that its simulation ever takes.
#[derive(Debug, Drop)]
pub struct Simulation<'a> {
    world: World<'a>,
    room: CycleRoom,
}

impl<'a> Model for Simulation<'a> {
    ghost use Rattle.cell_netlist.specs.Netlists.{PlainNetlist};
    ghost use Rattle.pulse_traces.specs.Rooms.{HasRooms};
    ghost use Rattle.pulse_traces.specs.Simulations.{IsStart};

    ghost Value = { PlainNetlist };

    ghost view = { λ simulation. simulation.world.net };

    ghost invariant = { λ simulation. IsStart simulation.world.net simulation.world × HasRooms simulation.world.net simulation.room };
}

/// Makes the chooser of a function, and writes the text of the cycles in its order.
fn write_by<F: Fn(u64, u64) -> u64 + Choose + Drop, K: Sink>(
    order: DeliveryOrder,
    choose: F,
    simulation: Simulation<'_>,
    vectors: &Vectors,
    trace: bool,
    out: &mut K,
) -> Result<(), Failed>
    requires answers { AnswersBelow (F.Choose.takes choose) (F.Choose.names choose) }
    requires order { Follows (F.Choose.names choose) order }
    requires width { (vector : List Bool) → IsIn vector vectors.now.vectors → length vector ≡ simulation.inputs }
    ensures { WritesSimulation order trace simulation.entry vectors.now.vectors (K.taken out.old) (K.taken out.new) (K.faults out.old) (K.faults out.new) result }
{
    let chooser = Chooser::new(choose);
    let mut world = simulation.world;
    let mut room = simulation.room;
    let _ = world.phase();
    write_cycles(order, &mut world, &chooser, vectors, trace, &mut room, out)
}

/// The same in the order `first`. Each order has a function of its own, so that none is asked for at each delivery.
fn write_first<K: Sink>(
    simulation: Simulation<'_>,
    vectors: &Vectors,
    trace: bool,
    out: &mut K,
) -> Result<(), Failed>
    requires width { (vector : List Bool) → IsIn vector vectors.now.vectors → length vector ≡ simulation.inputs }
    ensures { WritesSimulation First trace simulation.entry vectors.now.vectors (K.taken out.old) (K.taken out.new) (K.faults out.old) (K.faults out.new) result }
{
    write_by(
        DeliveryOrder::First,
        |_step: u64, _count: u64| -> u64
            ensures { result ≡ 0 }
        { 0 },
        simulation,
        vectors,
        trace,
        out,
    )
}

/// The same in the order `last`.
fn write_last<K: Sink>(
    simulation: Simulation<'_>,
    vectors: &Vectors,
    trace: bool,
    out: &mut K,
) -> Result<(), Failed>
    requires width { (vector : List Bool) → IsIn vector vectors.now.vectors → length vector ≡ simulation.inputs }
    ensures { WritesSimulation Last trace simulation.entry vectors.now.vectors (K.taken out.old) (K.taken out.new) (K.faults out.old) (K.faults out.new) result }
{
    write_by(
        DeliveryOrder::Last,
        |_step: u64, count: u64| -> u64
            requires { 1 ≤ count }
            ensures { result ≡ count - 1 }
        { count - 1 },
        simulation,
        vectors,
        trace,
        out,
    )
}

/// The same in the order `mix` of a number.
fn write_mixed<K: Sink>(
    number: u32,
    simulation: Simulation<'_>,
    vectors: &Vectors,
    trace: bool,
    out: &mut K,
) -> Result<(), Failed>
    requires width { (vector : List Bool) → IsIn vector vectors.now.vectors → length vector ≡ simulation.inputs }
    ensures { WritesSimulation (Mix number) trace simulation.entry vectors.now.vectors (K.taken out.old) (K.taken out.new) (K.faults out.old) (K.faults out.new) result }
{
    write_by(
        DeliveryOrder::Mix(number),
        move |step: u64, count: u64| -> u64
            requires step { step < 2 ^ 63 }
            requires some { 1 ≤ count }
            requires few { count ≤ 2 ^ 22 }
            ensures { result ≡ place_of (Mix number) step count }
        { DeliveryOrder::Mix(number).place(step, count) },
        simulation,
        vectors,
        trace,
        out,
    )
}

/// Makes the chooser of a function, and counts the pulses of cycles of one vector in its order.
fn count_by<F: Fn(u64, u64) -> u64 + Choose + Drop>(
    order: DeliveryOrder,
    choose: F,
    simulation: Simulation<'_>,
    vector: &[bool],
    cycles: u32,
) -> PulseCounts
    requires answers { AnswersBelow (F.Choose.takes choose) (F.Choose.names choose) }
    requires order { Follows (F.Choose.names choose) order }
    requires width { length vector.now ≡ simulation.inputs }
    requires few { cycles ≤ 2 ^ 14 }
    ensures { CountsSimulation order simulation.entry (replicate cycles vector.now) result }
{
    let chooser = Chooser::new(choose);
    let mut world = simulation.world;
    let mut room = simulation.room;
    let _ = world.phase();
    count_cycles(order, &mut world, &chooser, vector, cycles, &mut room)
}

impl<'a> Simulation<'a> {
    /// A netlist at its start. It takes all the memory that the simulation ever takes.
    pub fn new(alloc: Global, net: &'a SoundNet) -> Result<Simulation<'a>, NoMemory>
        ensures { IfOk result (λ simulation. simulation ≡ net.now) }
    {
        Ok(Simulation {
            world: World::new(alloc, net)?,
            room: CycleRoom::new(alloc, net)?,
        })
    }

    /// Writes the text of the simulation on vectors, one bit an input port, in an order of deliveries, with or without
    /// the deliveries. Each delivery takes constant time, and nothing takes memory. Where the sink fails, it took a
    /// prefix of the text.
    pub fn write<K: Sink>(
        self,
        order: DeliveryOrder,
        trace: bool,
        vectors: &Vectors,
        out: &mut K,
    ) -> Result<(), Failed>
        requires width { (vector : List Bool) → IsIn vector vectors.now.vectors → length vector ≡ self.inputs }
        ensures { WritesSimulation order trace self.entry vectors.now.vectors (K.taken out.old) (K.taken out.new) (K.faults out.old) (K.faults out.new) result }
    {
        match order {
            DeliveryOrder::First => write_first(self, vectors, trace, out),
            DeliveryOrder::Last => write_last(self, vectors, trace, out),
            DeliveryOrder::Mix(number) => write_mixed(number, self, vectors, trace, out),
        }
    }

    /// Makes so many cycles of one vector in an order of deliveries, and counts their pulses. It writes nothing, and
    /// takes no memory.
    pub fn count(self, order: DeliveryOrder, vector: &[bool], cycles: u32) -> PulseCounts
        requires width { length vector.now ≡ self.inputs }
        requires few { cycles ≤ 2 ^ 14 }
        ensures { CountsSimulation order self.entry (replicate cycles vector.now) result }
    {
        count_by(
            order,
            move |step: u64, count: u64| -> u64
                requires step { step < 2 ^ 63 }
                requires some { 1 ≤ count }
                requires few { count ≤ 2 ^ 22 }
                ensures { result ≡ place_of order step count }
            { order.place(step, count) },
            self,
            vector,
            cycles,
        )
    }

    /// Writes the text of the simulation on vectors by their scripts, with or without the deliveries. It ends before
    /// the first cycle in which a script has a fault, and answers that fault, if there is one.
    pub fn write_scripted<K: Sink>(
        self,
        trace: bool,
        vectors: &Vectors,
        out: &mut K,
    ) -> Result<Option<CycleFault>, Failed>
        requires width { (vector : List Bool) → IsIn vector vectors.now.vectors → length vector ≡ self.inputs }
        requires short { (script : List WireId) → IsIn script vectors.now.scripts → length script < 2 ^ 32 }
        ensures { WritesReplay trace self.entry (scripted vectors.now) (K.taken out.old) (K.taken out.new) (K.faults out.old) (K.faults out.new) result }
    {
        let mut world = self.world;
        let mut room = self.room;
        let _ = world.phase();
        write_scripted(&mut world, vectors, trace, &mut room, out)
    }
}
