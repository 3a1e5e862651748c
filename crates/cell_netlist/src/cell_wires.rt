//! The wires of a cell: the bound of their numbers, and another feed.

ghost use Rattle.std.specs.Prelude.{◌≡◌, ◌≤◌};
ghost use Rattle.pulse_ids.specs.Quantities.{greatest_of};
ghost use Rattle.pulse_ids.specs.declared.quantities.Quantity.TheVariants.{Wires};
ghost use Rattle.cell_netlist.specs.Netlists.{cell_bound, with_feed, wire_bound, used};

use crate::lines::Cell;
use pulse_ids::{Ident, WireId};

/// One more than the greatest wire number in a cell.
pub(crate) fn bound_of(cell: Cell) -> u32
    requires { cell_bound cell ≤ greatest_of Wires }
    ensures { result ≡ cell_bound cell }
{
    match cell {
        Cell::La { a, b, out } | Cell::Fa { a, b, out } => {
            (a.number().max(b.number())).max(out.number()) + 1
        }
        Cell::Split { from, left, right } => {
            (from.number().max(left.number())).max(right.number()) + 1
        }
        Cell::Droc { feed, q, n, .. } => (feed.number() + 1)
            .max(bound_of_output(q))
            .max(bound_of_output(n)),
    }
}

// One more than the wire number of an output, and 0 for an unused one.
fn bound_of_output(output: Option<WireId>) -> u32
    requires { wire_bound (used output) ≤ greatest_of Wires }
    ensures { result ≡ wire_bound (used output) }
{
    match output {
        Some(wire) => wire.number() + 1,
        None => 0,
    }
}

/// A cell with another feed, where it is a DROC.
pub(crate) fn fed_by(wire: WireId, cell: Cell) -> Cell
    ensures { result ≡ with_feed wire cell }
{
    match cell {
        Cell::Droc {
            role,
            preload,
            q,
            n,
            ..
        } => Cell::Droc {
            role,
            preload,
            feed: wire,
            q,
            n,
        },
        other => other,
    }
}
