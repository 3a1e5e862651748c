//! The table of roots.

ghost use Rattle.std.specs.Prelude.{◌≡◌, ◌<◌, ℕ, IfOk, length};
ghost use Rattle.pulse_ids.specs.Lists.{IsIn};
ghost use Rattle.cell_netlist.specs.Netlists.{outs, reads};
ghost use Rattle.dependency_order.specs.Orders.{IsOrderOf};
ghost use Rattle.rail_checker.specs.DrivingCells.{HoldsDrivers};
ghost use Rattle.rail_checker.specs.Needs.{dependencies_of};
ghost use Rattle.rail_checker.specs.Tables.{AreOwn, AreRoots, with_roots};
ghost use Rattle.rail_checker.specs.Verdicts.{IsClear};

use crate::driving_cells::driving_cells;
use crate::grounding::grounding;
use cell_netlist::{Cell, Netlist, SoundNet, one_refusal};
use dependency_order::Order;
use pulse_ids::{CellId, Ident, NoMemory, Row, WireId};
use std::alloc::Global;

/// For each wire of a sound netlist its root. By the law on roots a wire carries its root's bit.
///
/// It takes time and memory linear in the lines of the netlist, whatever their order.
pub fn wire_roots(alloc: Global, net: &SoundNet) -> Result<Row<WireId, WireId>, NoMemory>
    ensures { IfOk result (λ roots. AreRoots net.now roots) }
{
    one_refusal();
    let net = net.net();
    let drivers = driving_cells(alloc, net)?;
    let order = grounding(alloc, net, drivers.as_slice())?;
    root_table(alloc, net, drivers.as_slice(), &order)
}

/// For each wire its root. It takes each driving cell once, after the driver of what it reads.
pub(crate) fn root_table(
    alloc: Global,
    net: &Netlist,
    drivers: &[CellId],
    order: &Order,
) -> Result<Row<WireId, WireId>, NoMemory>
    requires clear { IsClear net.now 8 }
    requires drivers { HoldsDrivers net.now drivers.now }
    requires order { IsOrderOf (dependencies_of net.now drivers.now) order.now }
    ensures { IfOk result (λ roots. AreRoots net.now roots) }
{
    let mut roots = own_wires(alloc, net.wires())?;
    for item in order.items() {
        put_roots(*net.cells().get(drivers[*item as usize]), &mut roots);
    }
    Ok(roots)
}

/// For each wire itself.
fn own_wires(alloc: Global, count: u32) -> Result<Row<WireId, WireId>, NoMemory>
    ensures { IfOk result (λ roots. AreOwn count roots) }
{
    let mut roots = Row::filled(alloc, WireId::new(0), count)?;
    for wire in 0..count {
        roots.set(WireId::new(wire), WireId::new(wire));
    }
    Ok(roots)
}

/// Gives a splitter's outputs the root of its input.
fn put_roots(cell: Cell, roots: &mut Row<WireId, WireId>)
    requires outs { (wire : ℕ) → IsIn wire (outs cell) → wire < length roots.old }
    requires reads { (wire : ℕ) → IsIn wire (reads cell) → wire < length roots.old }
    ensures { roots.new ≡ with_roots roots.old cell }
{
    if let Cell::Split { from, left, right } = cell {
        let root = *roots.get(from);
        roots.set(left, root);
        roots.set(right, root);
    }
}
