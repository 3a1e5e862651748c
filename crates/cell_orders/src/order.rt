//! The order of cells, and what drives a wire.

ghost use Rattle.std.specs.Prelude.{◌≡◌, ◌<◌, ◌++◌, ℕ, IfOk, OnOk};
ghost use Rattle.pulse_ids.specs.Lists.{IsIn};
ghost use Rattle.cell_netlist.specs.Netlists.{number_of_wires, reads};
ghost use Rattle.dependency_order.specs.Dependencies.{first_items};
ghost use Rattle.dependency_order.specs.Orders.{IsOrderOf};
ghost use Rattle.cell_orders.specs.CellOrders.{IsCellOrder};
ghost use Rattle.cell_orders.specs.Needs.{feeding, listed, needs_of_cell, dependencies_of};

use cell_netlist::{Cell, Driver, SoundNet, readers_of_wires};
use dependency_order::{Dependencies, Order, Totals, arrival_order};
use pulse_ids::{CellId, Ident, NoMemory, WireId};
use std::alloc::Global;

/// All cells, by their numbers, in an order in which each LA, FA and splitter comes after those whose outputs it reads.
///
/// It takes time and memory linear in the lines of the netlist, whatever their order, and fails only for want of
/// memory.
pub fn cell_order(alloc: Global, net: &SoundNet) -> Result<Order, NoMemory>
    ensures needs { IfOk result (λ order. IsOrderOf (dependencies_of net.now) order) }
    ensures cells { IfOk result (λ order. IsCellOrder net.now order.items) }
{
    let _sound = net.net();
    let dependencies = dependencies(alloc, net)?;
    Ok(arrival_order(alloc, &dependencies)?)
}

/// The LA, FA or splitter that drives a wire, which is below the number of wires. None where an input rail or a DROC
/// does. It takes constant time.
pub fn driving_cell(net: &SoundNet, wire: WireId) -> Option<CellId>
    requires { wire.number < number_of_wires net.now }
    ensures { feeding net.now wire.number ≡ listed result }
{
    match net.driver(wire) {
        Driver::Out(cell) | Driver::Left(cell) | Driver::Right(cell) => Some(cell),
        Driver::Input(_) => None,
        Driver::Q(_) | Driver::N(_) => None,
    }
}

/// The cells as items that need cells.
fn dependencies(alloc: Global, net: &SoundNet) -> Result<Dependencies, NoMemory>
    ensures { IfOk result (λ dependencies. dependencies ≡ dependencies_of net.now) }
{
    let cells = net.net().cells().len() as usize;
    let totals = Totals {
        starts: 0,
        items: cells,
        needs: net.net().wires() as usize,
        yields: cells,
    };
    let mut dependencies = Dependencies::with_capacity(alloc, cells, totals)?;
    add_cells(alloc, net, &mut dependencies)?;
    Ok(dependencies)
}

/// Adds the cells to dependencies that have no item.
fn add_cells(alloc: Global, net: &SoundNet, dependencies: &mut Dependencies) -> Result<(), NoMemory>
    requires { dependencies.old ≡ first_items (dependencies_of net.now) 0 }
    ensures { OnOk result (dependencies.new ≡ dependencies_of net.now) }
{
    readers_of_wires();
    let _few = net.net().wires();
    let mut needs = Vec::new(alloc);
    for number in 0..net.net().cells().len() {
        let cell = *net.net().cells().get(CellId::new(number));
        needs.clear();
        push_needs(&mut needs, net, cell)?;
        dependencies.push(needs.as_slice(), &[number])?;
    }
    Ok(())
}

/// Adds the LA, FA and splitter cells whose outputs an LA, FA or splitter reads.
fn push_needs(needs: &mut Vec<u32>, net: &SoundNet, cell: Cell) -> Result<(), NoMemory>
    requires { (wire : ℕ) → IsIn wire (reads cell) → wire < number_of_wires net.now }
    ensures { OnOk result (needs.new.items ≡ needs.old.items ++ needs_of_cell net.now cell) }
{
    match cell {
        Cell::La { a, b, .. } => push_drivers(needs, net, a, b),
        Cell::Fa { a, b, .. } => push_drivers(needs, net, a, b),
        Cell::Split { from, .. } => push_driver(needs, net, from),
        Cell::Droc { .. } => Ok(()),
    }
}

/// Adds the LA, FA and splitter cells that drive the wires of two ports.
fn push_drivers(needs: &mut Vec<u32>, net: &SoundNet, a: WireId, b: WireId) -> Result<(), NoMemory>
    requires a { a.number < number_of_wires net.now }
    requires b { b.number < number_of_wires net.now }
    ensures { OnOk result (needs.new.items ≡ needs.old.items ++ (feeding net.now a.number ++ feeding net.now b.number)) }
{
    push_driver(needs, net, a)?;
    push_driver(needs, net, b)
}

/// Adds the LA, FA or splitter that drives the wire.
fn push_driver(needs: &mut Vec<u32>, net: &SoundNet, wire: WireId) -> Result<(), NoMemory>
    requires { wire.number < number_of_wires net.now }
    ensures { OnOk result (needs.new.items ≡ needs.old.items ++ feeding net.now wire.number) }
{
    match driving_cell(net, wire) {
        Some(cell) => {
            needs.push(cell.number())?;
            Ok(())
        }
        None => Ok(()),
    }
}
