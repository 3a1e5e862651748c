//! LA, FA and splitter cells with an output that isn't grounded.

ghost use Rattle.std.specs.Prelude.{◌≡◌, ◌<◌, ◌++◌, ℕ, IfOk, OnOk, map, length};
ghost use Rattle.pulse_ids.specs.Lists.{IsIn};
ghost use Rattle.cell_netlist.specs.declared.lines.Cell.{Cell};
ghost use Rattle.cell_netlist.specs.Netlists.{wire_of, used, outs};
ghost use Rattle.dependency_order.specs.Dependencies.{first_items};
ghost use Rattle.dependency_order.specs.Orders.{IsOrderOf};
ghost use Rattle.rail_checker.specs.DrivingCells.{HoldsDrivers};
ghost use Rattle.rail_checker.specs.Needs.{needs_of_cell, dependencies_of, is_loose_in};
ghost use Rattle.rail_checker.specs.Verdicts.{IsFirst, PassesAt, IsJudged, IsClear};

use cell_netlist::{Cell, Netlist, Rail, Unsound};
use dependency_order::{Dependencies, Order, Totals, arrival_order};
use pulse_ids::{CellId, Ident, NoMemory, RailId, Row, WireId};
use std::alloc::Global;

/// The places of the driving cells in an order in which each cell comes after those that ground its inputs, and the
/// grounded wires.
pub(crate) fn grounding(alloc: Global, net: &Netlist, drivers: &[CellId]) -> Result<Order, NoMemory>
    requires { HoldsDrivers net.now drivers.now }
    ensures { IfOk result (λ order. IsOrderOf (dependencies_of net.now drivers.now) order) }
{
    let dependencies = dependencies(alloc, net, drivers)?;
    Ok(arrival_order(alloc, &dependencies)?)
}

/// The lowest LA, FA or splitter with an output that isn't grounded.
pub(crate) fn loop_at(net: &Netlist, drivers: &[CellId], order: &Order) -> Option<Unsound>
    requires clear { IsClear net.now 7 }
    requires drivers { HoldsDrivers net.now drivers.now }
    requires order { IsOrderOf (dependencies_of net.now drivers.now) order.now }
    ensures { IsJudged net.now 8 result }
{
    let cell = first_loose(net.cells(), order)?;
    Some(Unsound::Loop(CellId::new(cell)))
}

/// The lowest cell with an output that the order doesn't make known.
fn first_loose(cells: &Row<CellId, Cell>, order: &Order) -> Option<u32>
    requires { (cell : Cell) → IsIn cell cells.now → (wire : ℕ) → IsIn wire (outs cell) → wire < length order.now.known }
    ensures { IsFirst (PassesAt (is_loose_in order.now.known) cells.now) result }
{
    for number in 0..cells.len() {
        if is_loose(order, *cells.get(CellId::new(number))) {
            return Some(number);
        }
    }
    None
}

/// Whether a cell is an LA, FA or splitter with an output that isn't known.
fn is_loose(order: &Order, cell: Cell) -> bool
    requires { (wire : ℕ) → IsIn wire (outs cell) → wire < length order.now.known }
    ensures { result ≡ is_loose_in order.now.known cell }
{
    match cell {
        Cell::La { out, .. } => !order.knows(out.number()),
        Cell::Fa { out, .. } => !order.knows(out.number()),
        Cell::Split { left, right, .. } => {
            !(order.knows(left.number()) && order.knows(right.number()))
        }
        Cell::Droc { .. } => false,
    }
}

/// The driving cells as items that need and yield wires.
fn dependencies(alloc: Global, net: &Netlist, drivers: &[CellId]) -> Result<Dependencies, NoMemory>
    requires { HoldsDrivers net.now drivers.now }
    ensures { IfOk result (λ dependencies. dependencies ≡ dependencies_of net.now drivers.now) }
{
    let starts = rail_wires(alloc, net.input_rails())?;
    let totals = Totals {
        starts: starts.len(),
        items: drivers.len(),
        needs: net.wires() as usize,
        yields: net.wires() as usize,
    };
    let mut dependencies = Dependencies::with_capacity(alloc, net.wires() as usize, totals)?;
    dependencies.start(starts.as_slice())?;
    add_cells(alloc, net, drivers, &mut dependencies)?;
    Ok(dependencies)
}

/// The wires of the rails.
fn rail_wires(alloc: Global, rails: &Row<RailId, Rail>) -> Result<Vec<u32>, NoMemory>
    ensures { IfOk result (λ wires. wires.items ≡ map wire_of rails.now) }
{
    let mut wires = Vec::with_capacity(alloc, rails.len() as usize)?;
    for rail in rails.items() {
        wires.push(rail.wire.number())?;
    }
    Ok(wires)
}

/// Adds the driving cells to dependencies that have no item.
fn add_cells(
    alloc: Global,
    net: &Netlist,
    drivers: &[CellId],
    dependencies: &mut Dependencies,
) -> Result<(), NoMemory>
    requires drivers { HoldsDrivers net.now drivers.now }
    requires begun { dependencies.old ≡ first_items (dependencies_of net.now drivers.now) 0 }
    ensures { OnOk result (dependencies.new ≡ dependencies_of net.now drivers.now) }
{
    let mut needs = Vec::new(alloc);
    let mut yields = Vec::new(alloc);
    for driver in drivers {
        let cell = *net.cells().get(*driver);
        needs.clear();
        push_needs(&mut needs, cell)?;
        yields.clear();
        push_outs(&mut yields, cell)?;
        dependencies.push(needs.as_slice(), yields.as_slice())?;
    }
    Ok(())
}

/// Adds the wires that are to be grounded before the cell's outputs are.
fn push_needs(wires: &mut Vec<u32>, cell: Cell) -> Result<(), NoMemory>
    ensures { OnOk result (wires.new.items ≡ wires.old.items ++ needs_of_cell cell) }
{
    match cell {
        Cell::La { a, b, .. } | Cell::Fa { a, b, .. } => {
            wires.push(a.number())?;
            wires.push(b.number())?;
            Ok(())
        }
        Cell::Split { from, .. } => {
            wires.push(from.number())?;
            Ok(())
        }
        Cell::Droc { .. } => Ok(()),
    }
}

/// Adds the wires that the cell drives.
fn push_outs(wires: &mut Vec<u32>, cell: Cell) -> Result<(), NoMemory>
    ensures { OnOk result (wires.new.items ≡ wires.old.items ++ outs cell) }
{
    match cell {
        Cell::La { out, .. } | Cell::Fa { out, .. } => {
            wires.push(out.number())?;
            Ok(())
        }
        Cell::Split { left, right, .. } => {
            wires.push(left.number())?;
            wires.push(right.number())?;
            Ok(())
        }
        Cell::Droc { q, n, .. } => {
            push_used(wires, q)?;
            push_used(wires, n)
        }
    }
}

/// Adds the wire of an output that is used.
fn push_used(wires: &mut Vec<u32>, output: Option<WireId>) -> Result<(), NoMemory>
    ensures { OnOk result (wires.new.items ≡ wires.old.items ++ used output) }
{
    match output {
        Some(wire) => {
            wires.push(wire.number())?;
            Ok(())
        }
        None => Ok(()),
    }
}
