//! The report on a netlist.

ghost use Rattle.std.specs.Prelude.{IfOk};
ghost use Rattle.junction_report.specs.Reports.{IsReport};

use crate::counts::{count_cells, junctions};
use crate::depths::{Measured, depth_table, greatest};
use crate::paths::deepest_path;
use crate::reports::Report;
use cell_netlist::SoundNet;
use cell_orders::cell_order;
use pulse_ids::NoMemory;
use std::alloc::Global;

/// What a netlist costs: rails, cells of each kind, junctions, its depths and its deepest path.
///
/// It takes time and memory linear in the lines of the netlist, and fails only for want of memory.
pub fn report(alloc: Global, net: &SoundNet) -> Result<Report, NoMemory>
    ensures { IfOk result (λ report. IsReport net.now report) }
{
    let plain = net.net();
    let _few = plain.wires();
    let counts = count_cells(plain.cells().items());
    let order = cell_order(alloc, net)?;
    let gates = depth_table(alloc, net, &order, Measured::Gates)?;
    let cells = depth_table(alloc, net, &order, Measured::Cells)?;
    let path = deepest_path(alloc, net, &cells)?;
    Ok(Report {
        input_rails: plain.input_rails().len(),
        output_rails: plain.output_rails().len(),
        la: counts.la,
        fa: counts.fa,
        split: counts.split,
        droc0: counts.droc0,
        droc1: counts.droc1,
        junctions: junctions(counts),
        logic: greatest(gates.items()),
        cells: greatest(cells.items()),
        path,
    })
}
