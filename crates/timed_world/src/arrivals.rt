//! For each wire the time at which its pulse comes at the latest.

ghost use Rattle.std.specs.Prelude.{◌≡◌, ◌<◌, ◌≤◌, ◌+◌, ◌*◌, ℕ, max, IfOk, length};
ghost use Rattle.pulse_ids.specs.Lists.{IsIn};
ghost use Rattle.cell_netlist.specs.Netlists.{number_of_wires, most_lines, reads};
ghost use Rattle.cell_orders.specs.CellOrders.{IsCellOrder};
ghost use Rattle.timed_world.specs.ArrivalTables.{AreCellArrivals, AreUpTo, table_arrival, cell_arrival as arrival_of_cell};
ghost use Rattle.timed_world.specs.Bounds.{entry_of};

use crate::delays::KindDelays;
use crate::kinds::Kind;
use cell_netlist::{Cell, Driver, SoundNet};
use dependency_order::Order;
use pulse_ids::{CellId, Ident, NoMemory, Row, WireId};
use std::alloc::Global;

/// For each LA, FA and splitter the arrival of its outputs. It takes each cell once, after those that it reads.
pub(crate) fn arrival_table(
    alloc: Global,
    net: &SoundNet,
    delays: &KindDelays,
    order: &Order,
) -> Result<Row<CellId, u64>, NoMemory>
    requires { IsCellOrder net.now order.now.items }
    ensures arrivals { IfOk result (λ table. AreCellArrivals delays.now net.now table) }
    ensures small { IfOk result (λ table. AreUpTo (1000 * (most_lines + 1)) table) }
{
    delays.range();
    let _few = net.net().wires();
    let mut table = Row::filled(alloc, 0, net.net().cells().len())?;
    for item in order.items() {
        let id = CellId::new(*item);
        let time = cell_arrival(net, delays, &table, *net.net().cells().get(id));
        table.set(id, time);
    }
    Ok(table)
}

/// The arrival of the outputs of a cell, by those of its inputs.
fn cell_arrival(net: &SoundNet, delays: &KindDelays, table: &Row<CellId, u64>, cell: Cell) -> u64
    requires width { length table.now ≡ length net.now.cells }
    requires small { AreUpTo (1000 * (most_lines + 1)) table.now }
    requires reads { (wire : ℕ) → IsIn wire (reads cell) → wire < number_of_wires net.now }
    ensures { result ≡ arrival_of_cell delays.now net.now table.now cell }
{
    entry_arrival(net, delays, table, cell) + delays.of_cell(cell)
}

/// The greatest arrival of the inputs of a cell, and 0 for a DROC.
fn entry_arrival(net: &SoundNet, delays: &KindDelays, table: &Row<CellId, u64>, cell: Cell) -> u64
    requires width { length table.now ≡ length net.now.cells }
    requires small { AreUpTo (1000 * (most_lines + 1)) table.now }
    requires reads { (wire : ℕ) → IsIn wire (reads cell) → wire < number_of_wires net.now }
    ensures value { result ≡ entry_of (table_arrival delays.now net.now table.now) cell }
    ensures small { result ≤ 1000 * (most_lines + 1) }
{
    match cell {
        Cell::La { a, b, .. } => greater_arrival(net, delays, table, a, b),
        Cell::Fa { a, b, .. } => greater_arrival(net, delays, table, a, b),
        Cell::Split { from, .. } => arrival(net, delays, table, from),
        Cell::Droc { .. } => 0,
    }
}

/// The greater arrival of two wires.
fn greater_arrival(
    net: &SoundNet,
    delays: &KindDelays,
    table: &Row<CellId, u64>,
    a: WireId,
    b: WireId,
) -> u64
    requires width { length table.now ≡ length net.now.cells }
    requires small { AreUpTo (1000 * (most_lines + 1)) table.now }
    requires a { a.number < number_of_wires net.now }
    requires b { b.number < number_of_wires net.now }
    ensures value { result ≡ max (table_arrival delays.now net.now table.now a.number) (table_arrival delays.now net.now table.now b.number) }
    ensures small { result ≤ 1000 * (most_lines + 1) }
{
    let arrival_a = arrival(net, delays, table, a);
    let arrival_b = arrival(net, delays, table, b);
    arrival_a.max(arrival_b)
}

/// The arrival of a wire, by the table for the LA, FA and splitter cells.
pub(crate) fn arrival(
    net: &SoundNet,
    delays: &KindDelays,
    table: &Row<CellId, u64>,
    wire: WireId,
) -> u64
    requires width { length table.now ≡ length net.now.cells }
    requires small { AreUpTo (1000 * (most_lines + 1)) table.now }
    requires wire { wire.number < number_of_wires net.now }
    ensures value { result ≡ table_arrival delays.now net.now table.now wire.number }
    ensures small { result ≤ 1000 * (most_lines + 1) }
{
    match net.driver(wire) {
        Driver::Input(_) => 0,
        Driver::Out(id) | Driver::Left(id) | Driver::Right(id) => *table.get(id),
        Driver::Q(_) => delays.of(Kind::Droc),
        Driver::N(_) => delays.of(Kind::Droc),
    }
}
