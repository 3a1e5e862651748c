//! The cells that drive wires, in the order of those wires.

ghost use Rattle.std.specs.Prelude.{◌≡◌, ◌<◌, ℕ, IfOk, length, nat_lt};
ghost use Rattle.std.specs.List.{filter};
ghost use Rattle.pulse_ids.specs.Lists.{IsIn};
ghost use Rattle.cell_netlist.specs.Netlists.{outs};
ghost use Rattle.cell_netlist.specs.Decisions.{number_on};
ghost use Rattle.rail_checker.specs.DrivingCells.{HoldsDrivers, ShowsDrivers, first_out};
ghost use Rattle.rail_checker.specs.Tables.{with_at};
ghost use Rattle.rail_checker.specs.Verdicts.{IsClear};

use cell_netlist::{Cell, Netlist};
use pulse_ids::{CellId, Ident, NoMemory, Row, WireId};
use std::alloc::Global;

/// The cells that drive a wire, in the order of the first wires that they drive. Wires are mostly numbered along
/// the drivers, so what goes over the cells in this order meets the tables of wires in order too, however the lines
/// of the cells are ordered.
///
/// It takes time linear in the cells and wires, and a table of the wires that is given back at the end.
pub(crate) fn driving_cells(alloc: Global, net: &Netlist) -> Result<Vec<CellId>, NoMemory>
    requires { IsClear net.now 4 }
    ensures { IfOk result (λ drivers. HoldsDrivers net.now drivers.items) }
{
    let _most = net.wires();
    let table = driver_table(alloc, net)?;
    cells_within(alloc, table.items(), net.cells().len())
}

/// For each wire the cell whose first output it is, and a number past the cells where there is no such cell.
fn driver_table(alloc: Global, net: &Netlist) -> Result<Row<WireId, CellId>, NoMemory>
    requires { IsClear net.now 4 }
    ensures { IfOk result (λ table. ShowsDrivers net.now (length net.now.cells) table) }
{
    let no_cell = CellId::new(net.cells().len());
    let mut table = Row::filled(alloc, no_cell, net.wires())?;
    for number in 0..net.cells().len() {
        let id = CellId::new(number);
        put_driver(id, *net.cells().get(id), &mut table);
    }
    Ok(table)
}

/// Writes a cell at its first output.
fn put_driver(id: CellId, cell: Cell, table: &mut Row<WireId, CellId>)
    requires { (wire : ℕ) → IsIn wire (outs cell) → wire < length table.old }
    ensures { table.new ≡ with_at table.old (first_out cell) id }
{
    if let Some(wire) = first_out(cell) {
        table.set(wire, id);
    }
}

/// The first wire that a cell drives.
fn first_out(cell: Cell) -> Option<WireId>
    ensures { number_on result ≡ first_out cell }
{
    match cell {
        Cell::La { out, .. } | Cell::Fa { out, .. } => Some(out),
        Cell::Split { left, .. } => Some(left),
        Cell::Droc { q: None, n, .. } => n,
        Cell::Droc { q, .. } => q,
    }
}

/// The numbers that are those of so many cells, in their order.
fn cells_within(alloc: Global, ids: &[CellId], count: u32) -> Result<Vec<CellId>, NoMemory>
    ensures { IfOk result (λ cells. cells.items ≡ filter (λ id. nat_lt id.number count) ids.now) }
{
    let mut cells = Vec::with_capacity(alloc, count as usize)?;
    for id in ids {
        if id.number() < count {
            cells.push(*id)?;
        }
    }
    Ok(cells)
}
