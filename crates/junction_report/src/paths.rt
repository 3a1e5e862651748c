//! The deepest path, from its last cell back.

ghost use Rattle.std.specs.Prelude.{◌≡◌, ◌<◌, [], ℕ, IfOk, IfSome, length, nat_lt, if◌then◌else◌};
ghost use Rattle.pulse_ids.specs.Lists.{IsIn};
ghost use Rattle.cell_netlist.specs.Netlists.{number_of_wires, most_lines, reads};
ghost use Rattle.junction_report.specs.declared.depths.Measured.TheVariants as measured_by;
ghost use Rattle.junction_report.specs.Depths.{AreDepths, AreAtMost, depth_behind as behind};
ghost use Rattle.cell_orders.specs.Needs.{listed};
ghost use Rattle.junction_report.specs.Walks.{IsPassing};
ghost use Rattle.junction_report.specs.Paths.{IsPath};
ghost use Rattle.junction_report.specs.Reports.{numbers_of};
ghost use Rattle.junction_report.specs.Traces.{IsLast, IsBackTo, before};

use crate::depths::{depth_behind, greatest, lowest_of};
use crate::reports::Path;
use cell_netlist::{Cell, SoundNet};
use cell_orders::driving_cell;
use pulse_ids::{CellId, NoMemory, Row, WireId};
use std::alloc::Global;

/// The path that ends in the lowest of the deepest cells. It takes time and memory linear in its length, and looks
/// once at each cell's depth.
pub(crate) fn deepest_path(
    alloc: Global,
    net: &SoundNet,
    depths: &Row<CellId, u32>,
) -> Result<Path, NoMemory>
    requires { AreDepths net.now measured_by.Cells depths.now }
    ensures { IfOk result (λ path. IsPath net.now (numbers_of path)) }
{
    let _few = net.net().wires();
    let last = deepest(depths);
    let mut cells = cells_back_from(alloc, net, depths, last)?;
    cells.reverse();
    Ok(Path::new(cells))
}

/// The lowest of the deepest cells. None where all have depth 0.
fn deepest(depths: &Row<CellId, u32>) -> Option<CellId>
    ensures { IsLast depths.now result }
{
    let greatest = greatest(depths.items());
    if greatest == 0 {
        return None;
    }
    lowest_of(depths, greatest)
}

/// The cells of a path from its last one back to its first.
fn cells_back_from(
    alloc: Global,
    net: &SoundNet,
    depths: &Row<CellId, u32>,
    last: Option<CellId>,
) -> Result<Vec<CellId>, NoMemory>
    requires depths { AreDepths net.now measured_by.Cells depths.now }
    requires last { IfSome last (λ cell. IsPassing net.now cell.number) }
    ensures { IfOk result (λ cells. IsBackTo net.now depths.now (listed last) (numbers_of cells.items) []) }
{
    let _few = net.net().wires();
    let mut cells = Vec::new(alloc);
    let mut next = last;
    while let Some(cell) = next {
        cells.push(cell)?;
        next = cell_before(net, depths, *net.net().cells().get(cell));
    }
    Ok(cells)
}

/// The cell before a cell on its path. None where the path comes from an input rail or a DROC.
fn cell_before(net: &SoundNet, depths: &Row<CellId, u32>, cell: Cell) -> Option<CellId>
    requires width { length depths.now ≡ length net.now.cells }
    requires small { AreAtMost most_lines depths.now }
    requires reads { (wire : ℕ) → IsIn wire (reads cell) → wire < number_of_wires net.now }
    ensures { before net.now depths.now cell ≡ listed result }
{
    match cell {
        Cell::La { a, b, .. } => driving_cell(net, deeper_port(net, depths, a, b)),
        Cell::Fa { a, b, .. } => driving_cell(net, deeper_port(net, depths, a, b)),
        Cell::Split { from, .. } => driving_cell(net, from),
        Cell::Droc { .. } => None,
    }
}

/// The wire on port a, unless that on port b has the greater depth.
fn deeper_port(net: &SoundNet, depths: &Row<CellId, u32>, a: WireId, b: WireId) -> WireId
    requires width { length depths.now ≡ length net.now.cells }
    requires small { AreAtMost most_lines depths.now }
    requires a { a.number < number_of_wires net.now }
    requires b { b.number < number_of_wires net.now }
    ensures below { result.number < number_of_wires net.now }
    ensures value { result ≡ (if nat_lt (behind net.now depths.now a.number) (behind net.now depths.now b.number) then b else a) }
{
    let depth_a = depth_behind(net, depths, a);
    let depth_b = depth_behind(net, depths, b);
    if depth_a < depth_b { b } else { a }
}
