//! The bound of a netlist.

ghost use Rattle.std.specs.Prelude.{◌≡◌, ◌<◌, ◌≤◌, ◌+◌, ◌*◌, ◌^◌, ℕ, Some, IfOk, IfSome, length, map, option_map, slice_get, nat_lt, if◌then◌else◌};
ghost use Rattle.pulse_ids.specs.Lists.{IsIn};
ghost use Rattle.cell_netlist.specs.Netlists.{number_of_wires, most_lines, reads};
ghost use Rattle.timed_world.specs.ArrivalTables.{AreCellArrivals, AreUpTo, table_arrival};
ghost use Rattle.timed_world.specs.Bounds.{IsBound, LeadsBack, comes_by as way_into};
ghost use Rattle.timed_world.specs.Bounding.{BoundBy, IsDriven, IsLatestFound, numbers_of};

use crate::arrivals::{arrival, arrival_table};
use crate::bounds::Bound;
use crate::delays::{Delay, Delays, KindDelays};
use crate::drivers::driver_cell;
use crate::kinds::Kind;
use crate::laws::bounds_are_small;
use cell_netlist::{Cell, SoundNet, readers_of_wires};
use cell_orders::cell_order;
use pulse_ids::{CellId, Ident, NoMemory, Row, WireId};
use std::alloc::Global;

/// The bound of a netlist: the greatest arrival of all wires, and its path. An input rail's wire has arrival 0, a DROC's
/// output its delay, any other wire the greatest arrival of its driver's inputs plus the driver's delay.
///
/// The path is found backwards, from the driver of the lowest wire of the greatest arrival. Before a splitter stands the
/// driver of its input, before an LA or FA that of port a, unless port b has the greater arrival. It begins with a DROC,
/// or behind an input rail. The bound is in picoseconds, and below 2^33. It takes time and memory linear in the lines of
/// the netlist, and fails only for want of memory.
pub fn bound<F: Fn(Kind) -> u64 + Delay>(
    alloc: Global,
    net: &SoundNet,
    delays: &Delays<F>,
) -> Result<Bound, NoMemory>
    ensures bound { IfOk result (λ bound. BoundBy (F.Delay.gives delays.now) net.now bound) }
    ensures small { IfOk result (λ bound. bound.time < 2 ^ 33) }
{
    bounds_are_small();
    let delays = KindDelays::read(delays);
    delays.range();
    let _ = net.net().wires();
    let order = cell_order(alloc, net)?;
    let table = arrival_table(alloc, net, &delays, &order)?;
    bound_by(alloc, net, &delays, &table)
}

/// The bound, by a table of arrivals.
fn bound_by(
    alloc: Global,
    net: &SoundNet,
    delays: &KindDelays,
    table: &Row<CellId, u64>,
) -> Result<Bound, NoMemory>
    requires arrivals { AreCellArrivals delays.now net.now table.now }
    requires small { AreUpTo (1000 * (most_lines + 1)) table.now }
    ensures { IfOk result (λ bound. IsBound delays.now net.now bound) }
{
    readers_of_wires();
    let _ = net.net();
    let Some(last) = latest(net, delays, table) else {
        return Ok(Bound::new(0, Vec::new(alloc)));
    };
    let mut cells = cells_back_from(alloc, net, delays, table, last)?;
    cells.reverse();
    Ok(Bound::new(arrival(net, delays, table, last), cells))
}

/// The lowest of the wires of the greatest arrival. None where there is no wire.
fn latest(net: &SoundNet, delays: &KindDelays, table: &Row<CellId, u64>) -> Option<WireId>
    requires width { length table.now ≡ length net.now.cells }
    requires small { AreUpTo (1000 * (most_lines + 1)) table.now }
    ensures { IsLatestFound net.now (table_arrival delays.now net.now table.now) (number_of_wires net.now) (option_map (λ wire. wire.number) result) }
{
    let wires = net.net().wires();
    if wires == 0 {
        return None;
    }
    let mut last = WireId::new(0);
    let mut greatest = arrival(net, delays, table, last);
    for number in 1..wires {
        let wire = WireId::new(number);
        let time = arrival(net, delays, table, wire);
        let next = later(last, greatest, wire, time);
        last = next.0;
        greatest = next.1;
    }
    Some(last)
}

/// Of two wires with their arrivals the second, where it has the greater arrival, and else the first.
fn later(last: WireId, greatest: u64, wire: WireId, time: u64) -> (WireId, u64)
    ensures { result ≡ (if nat_lt greatest time then (wire, time) else (last, greatest)) }
{
    if greatest < time {
        (wire, time)
    } else {
        (last, greatest)
    }
}

/// The cells of the path to a wire, from the last one back to the first.
fn cells_back_from(
    alloc: Global,
    net: &SoundNet,
    delays: &KindDelays,
    table: &Row<CellId, u64>,
    last: WireId,
) -> Result<Vec<CellId>, NoMemory>
    requires arrivals { AreCellArrivals delays.now net.now table.now }
    requires small { AreUpTo (1000 * (most_lines + 1)) table.now }
    requires wire { last.number < number_of_wires net.now }
    ensures path { IfOk result (λ cells. LeadsBack net.now (table_arrival delays.now net.now table.now) (Some last.number) (numbers_of cells.items)) }
    ensures few { IfOk result (λ cells. length cells.items < 2 ^ 32) }
{
    delays.range();
    readers_of_wires();
    let _few = net.net().wires();
    let mut cells = Vec::new(alloc);
    let mut wire = Some(last);
    while let Some(id) = next_back(net, wire) {
        cells.push(id)?;
        wire = comes_by(net, delays, table, *net.net().cells().get(id));
    }
    Ok(cells)
}

/// The cell before a wire on the way back. None for no wire, or where an input rail drives it.
fn next_back(net: &SoundNet, wire: Option<WireId>) -> Option<CellId>
    requires { IfSome wire (λ wire. wire.number < number_of_wires net.now) }
    ensures { IsDriven net.now (option_map (λ wire. wire.number) wire) (option_map (λ id. id.number) result) }
{
    match wire {
        Some(wire) => driver_cell(net, wire),
        None => None,
    }
}

/// The wire by which the path comes to a cell: of the wires on two ports that on port a, unless that on port b has
/// the greater arrival. None for a DROC.
fn comes_by(
    net: &SoundNet,
    delays: &KindDelays,
    table: &Row<CellId, u64>,
    cell: Cell,
) -> Option<WireId>
    requires width { length table.now ≡ length net.now.cells }
    requires small { AreUpTo (1000 * (most_lines + 1)) table.now }
    requires reads { (wire : ℕ) → IsIn wire (reads cell) → wire < number_of_wires net.now }
    ensures value { option_map (λ wire. wire.number) result ≡ way_into (table_arrival delays.now net.now table.now) cell }
    ensures below { IfSome result (λ wire. wire.number < number_of_wires net.now) }
{
    match cell {
        Cell::La { a, b, .. } => Some(later_port(net, delays, table, a, b)),
        Cell::Fa { a, b, .. } => Some(later_port(net, delays, table, a, b)),
        Cell::Split { from, .. } => Some(from),
        Cell::Droc { .. } => None,
    }
}

/// The wire on port a, unless that on port b has the greater arrival.
fn later_port(
    net: &SoundNet,
    delays: &KindDelays,
    table: &Row<CellId, u64>,
    a: WireId,
    b: WireId,
) -> WireId
    requires width { length table.now ≡ length net.now.cells }
    requires small { AreUpTo (1000 * (most_lines + 1)) table.now }
    requires a { a.number < number_of_wires net.now }
    requires b { b.number < number_of_wires net.now }
    ensures below { result.number < number_of_wires net.now }
    ensures value { result.number ≡ (if nat_lt (table_arrival delays.now net.now table.now a.number) (table_arrival delays.now net.now table.now b.number) then b.number else a.number) }
{
    let arrival_a = arrival(net, delays, table, a);
    let arrival_b = arrival(net, delays, table, b);
    if arrival_a < arrival_b { b } else { a }
}
