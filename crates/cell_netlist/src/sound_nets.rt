//! A sound netlist with the one driver and the one reader of each wire.

ghost use Rattle.std.specs.Prelude.{◌≡◌, ◌<◌, ◌≤◌, ◌∷◌, [], map, length, replicate, IfOk, IfErr};
ghost use Rattle.std.specs.List.{flat_map};
ghost use Rattle.pulse_ids.specs.Ids.{numbered};
ghost use Rattle.cell_netlist.specs.declared.lines.Driver.TheVariants as drivers_of;
ghost use Rattle.cell_netlist.specs.declared.lines.Reader.TheVariants as readers_of;
ghost use Rattle.cell_netlist.specs.Netlists.{most_lines, number_of_wires, wire_bound, wire_of, outs, reads, used};
ghost use Rattle.cell_netlist.specs.Places.{drivers, readers, driving, reading, place_if_used, cell_places, rail_places, driving_places, reading_places};
ghost use Rattle.cell_netlist.specs.PlaceCodes.{driver_line};
ghost use Rattle.cell_netlist.specs.PlaceTables.{written};
ghost use Rattle.cell_netlist.specs.Sound.{IsSound};

use crate::lines::{Cell, Driver, Rail, Reader};
use crate::netlists::Netlist;
use crate::place_tables::PlaceTable;
use pulse_ids::{CellId, Ident, NoMemory, RailId, Row, WireId};
use std::alloc::Global;
use std::marker::Model;

/// A netlist that is sound, with a table of the drivers and one of the readers of its wires. It is its netlist.
#[derive(Debug, Drop)]
pub struct SoundNet {
    net: Netlist,
    drivers: PlaceTable<Driver>,
    readers: PlaceTable<Reader>,
}

impl Model for SoundNet {
    ghost use Rattle.cell_netlist.specs.Netlists.{PlainNetlist};
    ghost use Rattle.cell_netlist.specs.PlaceTables.{HasPlaceTables};
    ghost use Rattle.cell_netlist.specs.Sound.{IsSound};

    ghost Value = { PlainNetlist };

    ghost view = { λ sound. sound.net };

    ghost invariant = { λ sound. IsSound sound.net × HasPlaceTables sound.net sound.drivers sound.readers };
}

impl SoundNet {
    /// Takes a netlist that is sound and makes the tables of its wires. `Err` comes only for want of memory, and
    /// hands the netlist back.
    pub fn adopt(alloc: Global, net: Netlist) -> Result<SoundNet, Netlist>
        requires { IsSound net }
        ensures sound { IfOk result (λ sound. sound ≡ net) }
        ensures back { IfErr result (λ back. back ≡ net) }
    {
        let Ok(drivers) = driver_table(alloc, &net) else {
            return Err(net);
        };
        let Ok(readers) = reader_table(alloc, &net) else {
            return Err(net);
        };
        Ok(SoundNet {
            net,
            drivers,
            readers,
        })
    }

    /// The netlist. It is sound.
    pub fn net(&self) -> &Netlist
        ensures net { result.now ≡ self.now }
        ensures sound { IsSound self.now }
    {
        &self.net
    }

    /// The one place that drives the wire, which is below the number of wires. It takes constant time.
    pub fn driver(&self, wire: WireId) -> Driver
        requires { wire.number < number_of_wires self.now }
        ensures { drivers self.now wire.number ≡ result ∷ [] }
    {
        self.drivers.get(wire)
    }

    /// The one place that reads the wire, which is below the number of wires. It takes constant time.
    pub fn reader(&self, wire: WireId) -> Reader
        requires { wire.number < number_of_wires self.now }
        ensures { readers self.now wire.number ≡ result ∷ [] }
    {
        self.readers.get(wire)
    }

    /// The netlist by itself.
    pub fn into_net(self) -> Netlist
        ensures net { result ≡ self }
        ensures sound { IsSound self }
    {
        self.net
    }
}

/// The driving places, each written at its wire.
pub(crate) fn driver_table(alloc: Global, net: &Netlist) -> Result<PlaceTable<Driver>, NoMemory>
    ensures { IfOk result (λ table. table ≡ written (driving_places net.now) (replicate (number_of_wires net.now) (drivers_of.Input (numbered 0)))) }
{
    let mut table = PlaceTable::filled(alloc, Driver::Input(RailId::new(0)), net.wires())?;
    drive_by_rails(net.input_rails(), &mut table);
    drive_by_cells(net.cells(), &mut table);
    Ok(table)
}

/// The reading places, each written at its wire.
pub(crate) fn reader_table(alloc: Global, net: &Netlist) -> Result<PlaceTable<Reader>, NoMemory>
    ensures { IfOk result (λ table. table ≡ written (reading_places net.now) (replicate (number_of_wires net.now) (readers_of.Output (numbered 0)))) }
{
    let mut table = PlaceTable::filled(alloc, Reader::Output(RailId::new(0)), net.wires())?;
    read_by_cells(net.cells(), &mut table);
    read_by_rails(net.output_rails(), &mut table);
    Ok(table)
}

fn drive_by_rails(rails: &Row<RailId, Rail>, table: &mut PlaceTable<Driver>)
    requires wires { wire_bound (map wire_of rails.now) ≤ length table.old }
    requires few { length rails.now ≤ most_lines }
    ensures { table.new ≡ written (rail_places (λ r. drivers_of.Input (numbered r)) 0 rails.now) table.old }
{
    for number in 0..rails.len() {
        let id = RailId::new(number);
        table.set(rails.get(id).wire, Driver::Input(id));
    }
}

fn read_by_rails(rails: &Row<RailId, Rail>, table: &mut PlaceTable<Reader>)
    requires wires { wire_bound (map wire_of rails.now) ≤ length table.old }
    requires few { length rails.now ≤ most_lines }
    ensures { table.new ≡ written (rail_places (λ r. readers_of.Output (numbered r)) 0 rails.now) table.old }
{
    for number in 0..rails.len() {
        let id = RailId::new(number);
        table.set(rails.get(id).wire, Reader::Output(id));
    }
}

fn drive_by_cells(cells: &Row<CellId, Cell>, table: &mut PlaceTable<Driver>)
    requires wires { wire_bound (flat_map outs cells.now) ≤ length table.old }
    requires few { length cells.now ≤ most_lines }
    ensures { table.new ≡ written (cell_places driving 0 cells.now) table.old }
{
    for number in 0..cells.len() {
        let id = CellId::new(number);
        drive_by_cell(id, *cells.get(id), table);
    }
}

fn read_by_cells(cells: &Row<CellId, Cell>, table: &mut PlaceTable<Reader>)
    requires wires { wire_bound (flat_map reads cells.now) ≤ length table.old }
    requires few { length cells.now ≤ most_lines }
    ensures { table.new ≡ written (cell_places reading 0 cells.now) table.old }
{
    for number in 0..cells.len() {
        let id = CellId::new(number);
        read_by_cell(id, *cells.get(id), table);
    }
}

fn drive_by_cell(id: CellId, cell: Cell, table: &mut PlaceTable<Driver>)
    requires wires { wire_bound (outs cell) ≤ length table.old }
    requires line { id.number < most_lines }
    ensures { table.new ≡ written (driving id.number cell) table.old }
{
    match cell {
        Cell::La { out, .. } | Cell::Fa { out, .. } => table.set(out, Driver::Out(id)),
        Cell::Split { left, right, .. } => {
            table.set(left, Driver::Left(id));
            table.set(right, Driver::Right(id));
        }
        Cell::Droc { q, n, .. } => {
            drive_by_output(q, Driver::Q(id), table);
            drive_by_output(n, Driver::N(id), table);
        }
    }
}

fn drive_by_output(output: Option<WireId>, place: Driver, table: &mut PlaceTable<Driver>)
    requires wires { wire_bound (used output) ≤ length table.old }
    requires line { driver_line place < most_lines }
    ensures { table.new ≡ written (place_if_used output place) table.old }
{
    if let Some(wire) = output {
        table.set(wire, place);
    }
}

fn read_by_cell(id: CellId, cell: Cell, table: &mut PlaceTable<Reader>)
    requires wires { wire_bound (reads cell) ≤ length table.old }
    requires line { id.number < most_lines }
    ensures { table.new ≡ written (reading id.number cell) table.old }
{
    match cell {
        Cell::La { a, b, .. } | Cell::Fa { a, b, .. } => {
            table.set(a, Reader::A(id));
            table.set(b, Reader::B(id));
        }
        Cell::Split { from, .. } => table.set(from, Reader::From(id)),
        Cell::Droc { feed, .. } => table.set(feed, Reader::Feed(id)),
    }
}
