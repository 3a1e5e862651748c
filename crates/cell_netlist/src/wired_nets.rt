//! A netlist whose wires have one driver and one reader each, with these places.

ghost use Rattle.std.specs.Prelude.{◌≡◌, ◌<◌, ◌∷◌, [], IfOk};
ghost use Rattle.cell_netlist.specs.Netlists.{number_of_wires};
ghost use Rattle.cell_netlist.specs.Places.{drivers, readers};
ghost use Rattle.cell_netlist.specs.Wired.{IsWired};

use crate::lines::{Driver, Reader};
use crate::netlists::Netlist;
use crate::place_tables::PlaceTable;
use crate::sound_nets::{driver_table, reader_table};
use pulse_ids::{NoMemory, WireId};
use std::alloc::Global;
use std::marker::Model;

/// A netlist whose wires have one driver and one reader each, sound or not, with a table of the drivers and one of the
/// readers. It is its netlist.
#[derive(Debug, Drop)]
pub struct WiredNet<'a> {
    net: &'a Netlist,
    drivers: PlaceTable<Driver>,
    readers: PlaceTable<Reader>,
}

impl<'a> Model for WiredNet<'a> {
    ghost use Rattle.cell_netlist.specs.Netlists.{PlainNetlist};
    ghost use Rattle.cell_netlist.specs.PlaceTables.{HasPlaceTables};

    ghost Value = { PlainNetlist };

    ghost view = { λ wired. wired.net.now };

    ghost invariant = { λ wired. HasPlaceTables wired.net.now wired.drivers wired.readers };
}

impl<'a> WiredNet<'a> {
    /// Makes the tables of a netlist's wires, each of which has one driver and one reader. `Err` comes only for want of
    /// memory.
    pub fn new(alloc: Global, net: &'a Netlist) -> Result<WiredNet<'a>, NoMemory>
        requires { IsWired net.now }
        ensures { IfOk result (λ wired. wired ≡ net.now) }
    {
        let drivers = driver_table(alloc, net)?;
        let readers = reader_table(alloc, net)?;
        Ok(WiredNet {
            net,
            drivers,
            readers,
        })
    }

    /// The netlist. Each of its wires has one driver and one reader.
    pub fn net(&self) -> &'a Netlist
        ensures net { result.now ≡ self.now }
        ensures wired { IsWired self.now }
    {
        let _ = &self.readers;
        self.net
    }

    /// The one place that drives the wire, which is below the number of wires. It takes constant time.
    pub fn driver(&self, wire: WireId) -> Driver
        requires { wire.number < number_of_wires self.now }
        ensures { drivers self.now wire.number ≡ result ∷ [] }
    {
        self.drivers.get(wire)
    }

    /// The one place that reads the wire, which is below the number of wires. It takes constant time.
    pub fn reader(&self, wire: WireId) -> Reader
        requires { wire.number < number_of_wires self.now }
        ensures { readers self.now wire.number ≡ result ∷ [] }
    {
        self.readers.get(wire)
    }
}
