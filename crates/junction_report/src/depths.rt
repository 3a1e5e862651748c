//! For each cell the greatest measure of a walk that ends there.

ghost use Rattle.std.specs.Prelude.{◌≡◌, ◌<◌, ◌≤◌, ◌+◌, ℕ, max, IfOk, length, option_map, ◌==◌};
ghost use Rattle.std.specs.List.{position};
ghost use Rattle.pulse_ids.specs.Lists.{IsIn};
ghost use Rattle.cell_netlist.specs.Netlists.{number_of_wires, most_lines, reads};
ghost use Rattle.dependency_order.specs.Orders.{IsOrderOf};
ghost use Rattle.cell_orders.specs.Needs.{dependencies_of};
ghost use Rattle.junction_report.specs.Depths.{AreDepths, AreAtMost, share_of, depth_behind as behind, entry_depth as entry, most};

use cell_netlist::{Cell, SoundNet};
use cell_orders::driving_cell;
use dependency_order::Order;
use pulse_ids::{CellId, Ident, NoMemory, Row, WireId};
use std::alloc::Global;

/// What of a walk is counted.
#[derive(Clone, Copy, Debug)]
pub(crate) enum Measured {
    /// All its cells.
    Cells,
    /// Its LA and FA cells.
    Gates,
}

/// For each LA, FA and splitter the greatest measure of a walk that ends in it, and 0 for each DROC. It takes each
/// cell once, after those that it reads.
pub(crate) fn depth_table(
    alloc: Global,
    net: &SoundNet,
    order: &Order,
    measured: Measured,
) -> Result<Row<CellId, u32>, NoMemory>
    requires { IsOrderOf (dependencies_of net.now) order.now }
    ensures { IfOk result (λ depths. AreDepths net.now measured depths) }
{
    let _few = net.net().wires();
    let mut depths = Row::filled(alloc, 0, net.net().cells().len())?;
    for item in order.items() {
        let id = CellId::new(*item);
        let depth = depth_of(net, &depths, measured, *net.net().cells().get(id));
        depths.set(id, depth);
    }
    Ok(depths)
}

/// The greatest measure of a walk that ends in a cell, by those of the cells that it reads.
fn depth_of(net: &SoundNet, depths: &Row<CellId, u32>, measured: Measured, cell: Cell) -> u32
    requires width { length depths.now ≡ length net.now.cells }
    requires small { AreAtMost most_lines depths.now }
    requires reads { (wire : ℕ) → IsIn wire (reads cell) → wire < number_of_wires net.now }
    ensures { result ≡ share_of measured cell + entry (behind net.now depths.now) cell }
{
    share(measured, cell) + entry_depth(net, depths, cell)
}

/// What a cell adds to the measure of a walk.
fn share(measured: Measured, cell: Cell) -> u32
    ensures { result ≡ share_of measured cell }
{
    match cell {
        Cell::La { .. } | Cell::Fa { .. } => 1,
        Cell::Split { .. } => match measured {
            Measured::Cells => 1,
            Measured::Gates => 0,
        },
        Cell::Droc { .. } => 0,
    }
}

/// The greatest measure of a walk that leads into a cell.
fn entry_depth(net: &SoundNet, depths: &Row<CellId, u32>, cell: Cell) -> u32
    requires width { length depths.now ≡ length net.now.cells }
    requires small { AreAtMost most_lines depths.now }
    requires reads { (wire : ℕ) → IsIn wire (reads cell) → wire < number_of_wires net.now }
    ensures value { result ≡ entry (behind net.now depths.now) cell }
    ensures small { result ≤ most_lines }
{
    match cell {
        Cell::La { a, b, .. } => greater_depth(net, depths, a, b),
        Cell::Fa { a, b, .. } => greater_depth(net, depths, a, b),
        Cell::Split { from, .. } => depth_behind(net, depths, from),
        Cell::Droc { .. } => 0,
    }
}

/// The greater depth of two wires.
fn greater_depth(net: &SoundNet, depths: &Row<CellId, u32>, a: WireId, b: WireId) -> u32
    requires width { length depths.now ≡ length net.now.cells }
    requires small { AreAtMost most_lines depths.now }
    requires a { a.number < number_of_wires net.now }
    requires b { b.number < number_of_wires net.now }
    ensures value { result ≡ max (behind net.now depths.now a.number) (behind net.now depths.now b.number) }
    ensures small { result ≤ most_lines }
{
    let depth_a = depth_behind(net, depths, a);
    let depth_b = depth_behind(net, depths, b);
    depth_a.max(depth_b)
}

/// The depth of the cell that drives a wire, and 0 where an input rail or a DROC does.
pub(crate) fn depth_behind(net: &SoundNet, depths: &Row<CellId, u32>, wire: WireId) -> u32
    requires width { length depths.now ≡ length net.now.cells }
    requires small { AreAtMost most_lines depths.now }
    requires wire { wire.number < number_of_wires net.now }
    ensures value { result ≡ behind net.now depths.now wire.number }
    ensures small { result ≤ most_lines }
{
    match driving_cell(net, wire) {
        Some(cell) => *depths.get(cell),
        None => 0,
    }
}

/// The greatest of the depths, and 0 where there is none.
pub(crate) fn greatest(depths: &[u32]) -> u32
    ensures { result ≡ most depths.now }
{
    let mut greatest = 0;
    for depth in depths {
        greatest = greatest.max(*depth);
    }
    greatest
}

/// The lowest cell of this depth.
pub(crate) fn lowest_of(depths: &Row<CellId, u32>, depth: u32) -> Option<CellId>
    ensures { option_map (λ cell. cell.number) result ≡ position (λ other. other == depth) depths.now }
{
    let _below = depths.len();
    match place_of(depths.items(), depth) {
        Some(place) => Some(CellId::new(place as u32)),
        None => None,
    }
}

/// The first place of this depth.
fn place_of(depths: &[u32], depth: u32) -> Option<usize>
    ensures { result ≡ position (λ other. other == depth) depths.now }
{
    depths.iter().position(|other| *other == depth)
}
