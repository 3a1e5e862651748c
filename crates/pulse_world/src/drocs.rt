//! Which cells are DROCs.

ghost use Rattle.std.specs.Prelude.{◌≡◌, IfOk};
ghost use Rattle.pulse_world.specs.PackedStates.{drocs_from, is_droc, numbers_in};

use cell_netlist::Cell;
use pulse_ids::{CellId, Ident, NoMemory, Row};
use std::alloc::Global;

/// The DROCs among cells, by rising numbers.
pub(crate) fn drocs_of(alloc: Global, cells: &Row<CellId, Cell>) -> Result<Vec<CellId>, NoMemory>
    ensures { IfOk result (λ drocs. numbers_in drocs.items ≡ drocs_from 0 cells.now) }
{
    let mut drocs = Vec::new(alloc);
    for number in 0..cells.len() {
        let id = CellId::new(number);
        if is_droc(*cells.get(id)) {
            drocs.push(id)?;
        }
    }
    Ok(drocs)
}

// Whether a cell is a DROC.
fn is_droc(cell: Cell) -> bool
    ensures { result ≡ is_droc cell }
{
    matches!(cell, Cell::Droc { .. })
}
