//! The wires of deliveries, in order.

ghost use Rattle.std.specs.Prelude.{◌≡◌, ◌<◌, ◌++◌, ◌∷◌, [], Some, length, map, slice_get, IfOk};
ghost use Rattle.cell_netlist.specs.Netlists.{number_of_wires};
ghost use Rattle.schedule_replay.specs.Logs.{PlainLog, wire_number};

use cell_netlist::SoundNet;
use pulse_ids::{NoMemory, WireId};
use std::alloc::Global;
use std::marker::Model;
use std::mem::replace;

/// The wires of deliveries in order, with room for as many as a netlist has wires. After `new` no call takes memory.
#[derive(Debug, Drop)]
pub struct Log {
    wires: Vec<WireId>,
    room: u32,
}

impl Model for Log {
    ghost use Rattle.std.specs.Vec.{vec_capacity};
    ghost use Rattle.schedule_replay.specs.Logs.{PlainLog, log_of, IsLog};

    ghost Value = { PlainLog };

    ghost view = { λ log. log_of log.wires.items log.room };

    ghost invariant = { λ log. IsLog (log_of log.wires.items log.room) (vec_capacity log.wires) };
}

impl Log {
    /// An empty log, whose room is the netlist's number of wires. It takes all the memory that the log ever has.
    pub fn new(alloc: Global, net: &SoundNet) -> Result<Log, NoMemory>
        ensures { IfOk result (λ log. log ≡ record { wires = []; room = number_of_wires net.now }) }
    {
        let room = net.net().wires();
        Ok(Log {
            wires: Vec::with_capacity(alloc, room as usize)?,
            room,
        })
    }

    /// How many wires there is room for.
    pub fn room(&self) -> u32
        ensures { result ≡ self.now.room }
    {
        self.room
    }

    /// How many wires stand in the log, which is at most the room.
    pub fn len(&self) -> u32
        ensures { result ≡ length self.now.wires }
    {
        self.wires.len() as u32
    }

    /// The wire at a place, which is below the length.
    pub fn wire(&self, k: u32) -> WireId
        requires { k < length self.now.wires }
        ensures { slice_get self.now.wires k ≡ Some result.number }
    {
        self.wires[k as usize]
    }

    /// The wires in order.
    pub fn wires(&self) -> &[WireId]
        ensures { map wire_number result.now ≡ self.now.wires }
    {
        self.wires.as_slice()
    }

    /// Takes the log out. One without room, which takes no memory, stays.
    pub(crate) fn taken(&mut self) -> Log
        ensures { result ≡ self.old }
    {
        let alloc = *self.wires.allocator();
        let empty = Log {
            wires: Vec::new(alloc),
            room: 0,
        };
        replace(self, empty)
    }

    /// Empties the log.
    pub fn clear(&mut self)
        ensures { self.new ≡ record self.old { wires = [] } }
    {
        self.wires.clear();
    }

    /// Adds a wire at the end, where there is room.
    pub fn append(&mut self, wire: WireId)
        requires { length self.old.wires < self.old.room }
        ensures { self.new ≡ record self.old { wires = self.old.wires ++ wire.number ∷ [] } }
    {
        self.wires.push_reserved(wire);
    }
}
