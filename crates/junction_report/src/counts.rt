//! How many cells of each kind there are, and how many junctions they have.

ghost use Rattle.std.specs.Prelude.{◌≡◌, ◌<◌, ◌≤◌, ◌^◌, length};
ghost use Rattle.cell_netlist.specs.Netlists.{most_lines};
ghost use Rattle.junction_report.specs.Counts.{counts_of, with_cell, junctions_of, HasRoom, AreFew};

use cell_netlist::Cell;

/// How many cells of each kind there are.
#[derive(Clone, Copy, Debug)]
pub(crate) struct Counts {
    pub(crate) la: u32,
    pub(crate) fa: u32,
    pub(crate) split: u32,
    pub(crate) droc0: u32,
    pub(crate) droc1: u32,
}

/// How many of the cells are of each kind.
pub(crate) fn count_cells(cells: &[Cell]) -> Counts
    requires { length cells.now ≤ most_lines }
    ensures { result ≡ counts_of cells.now }
{
    let mut counts = Counts {
        la: 0,
        fa: 0,
        split: 0,
        droc0: 0,
        droc1: 0,
    };
    for cell in cells {
        add(&mut counts, *cell);
    }
    counts
}

/// Counts one cell more.
fn add(counts: &mut Counts, cell: Cell)
    requires { HasRoom counts.old }
    ensures { counts.new ≡ with_cell counts.old cell }
{
    match cell {
        Cell::La { .. } => counts.la += 1,
        Cell::Fa { .. } => counts.fa += 1,
        Cell::Split { .. } => counts.split += 1,
        Cell::Droc { preload, .. } => match preload {
            false => counts.droc0 += 1,
            true => counts.droc1 += 1,
        },
    }
}

/// The junctions of so many cells.
pub(crate) fn junctions(counts: Counts) -> u32
    requires { AreFew counts }
    ensures { result ≡ junctions_of counts }
{
    let gates = 4 * (counts.la + counts.fa);
    let drocs = 13 * counts.droc0 + 22 * counts.droc1;
    gates + 3 * counts.split + drocs
}
