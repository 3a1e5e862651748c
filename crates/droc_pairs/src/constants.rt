//! Constants.

ghost use Rattle.std.specs.Prelude.{◌≡◌, ◌≤◌, ◌<◌, ◌+◌, ◌*◌, ◌⊎◌, ◌^◌, ◌∷◌, [], length, IfOk, OnOk, OnErr};
ghost use Rattle.pulse_ids.specs.Quantities.{greatest_of};
ghost use Rattle.pulse_ids.specs.declared.quantities.Quantity.TheVariants.{Wires};
ghost use Rattle.cell_netlist.specs.Netlists.{number_of_wires, most_lines};
ghost use Rattle.splitter_trees.specs.Spreading.{with_cells, GainsSplitters};
ghost use Rattle.droc_pairs.specs.Pairs.{wires_for};
ghost use Rattle.droc_pairs.specs.Constants.{constant_cell, IsSpreadIfRead, IsConstant, GainsCells};

use crate::pairs::{output_on, wires_of};
use cell_netlist::{Cell, Netlist, Role};
use pulse_ids::{CellId, Ident, NoMemory, WireId};
use splitter_trees::{Leaves, spread};
use std::alloc::Global;

/// The leaves of a constant's two outputs.
#[derive(Debug, Drop)]
pub struct ConstLeaves {
    /// Those that carry 1.
    pub one: Leaves,
    /// Those that carry 0, without the one that feeds the constant.
    pub zero: Leaves,
}

/// Adds a constant 1 with so many leaves that carry 1 and so many that carry 0, of which there is at least one: the
/// cell, the tree of its `q`, and the tree of its `n`, whose first leaf returns to the cell's feed and is
/// not among the leaves answered. A `q` that nothing reads is unused.
///
/// The number of wires with twice the leaves and 4 is at most 4,194,304, and there are fewer than 2^26 cells. Where
/// memory is refused some cells may have been added, and all earlier lines stay; the netlist is of no use then. It
/// takes time in the number of leaves.
pub fn constant(
    alloc: Global,
    net: &mut Netlist,
    ones: u32,
    zeros: u32,
) -> Result<ConstLeaves, NoMemory>
    requires some { (1 ≤ ones) ⊎ (1 ≤ zeros) }
    requires wires { number_of_wires net.old + 2 * (ones + zeros) + 4 ≤ greatest_of Wires }
    requires cells { length net.old.cells < 2 ^ 26 }
    ensures constant { IfOk result (λ leaves. IsConstant net.old net.new ones zeros leaves.one leaves.zero) }
    ensures refused { OnErr result (GainsCells net.old net.new) }
{
    let next = net.wires();
    let cell = place(net, ones > 0)?;
    let one = spread_if_read(alloc, net, WireId::new(next), ones)?;
    let own = WireId::new(next + wires_of(ones > 0));
    let mut zero = spread(alloc, net, own, zeros + 1)?;
    let back = zero.take_first();
    net.set_feed(cell, back);
    Ok(ConstLeaves { one, zero })
}

// Adds the cell, which is fed by its own `n` until the tree of that has grown.
fn place(net: &mut Netlist, q: bool) -> Result<CellId, NoMemory>
    requires cells { length net.old.cells < 2 ^ 26 }
    requires wires { number_of_wires net.old + 4 ≤ greatest_of Wires }
    ensures placed { OnOk result (net.new ≡ with_cells net.old (constant_cell (number_of_wires net.old) q (number_of_wires net.old + wires_for q) ∷ [])) }
    ensures wires { OnOk result (number_of_wires net.new ≡ number_of_wires net.old + wires_for q + 1) }
    ensures cell { IfOk result (λ cell. cell.number ≡ length net.old.cells) }
    ensures unchanged { OnErr result (net.new ≡ net.old) }
{
    let next = net.wires();
    let own = WireId::new(next + wires_of(q));
    net.add_cell(Cell::Droc {
        role: Role::Const,
        preload: true,
        feed: own,
        q: output_on(q, next),
        n: Some(own),
    })
}

// Spreads a wire over its readers, where it has some.
fn spread_if_read(
    alloc: Global,
    net: &mut Netlist,
    from: WireId,
    readers: u32,
) -> Result<Leaves, NoMemory>
    requires from { 1 ≤ readers → from.number < number_of_wires net.old }
    requires wires { number_of_wires net.old + 2 * readers ≤ greatest_of Wires }
    requires cells { length net.old.cells + readers ≤ most_lines }
    ensures spread { IfOk result (λ leaves. IsSpreadIfRead net.old net.new from.number readers leaves) }
    ensures refused { OnErr result (GainsSplitters net.old net.new) }
{
    if readers == 0 {
        Ok(Leaves::new(alloc))
    } else {
        spread(alloc, net, from, readers)
    }
}
