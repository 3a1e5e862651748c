//! A wire is spread over its readers.

ghost use Rattle.std.specs.Prelude.{◌≡◌, ◌≤◌, ◌<◌, ◌+◌, ◌*◌, ◌^◌, ◌∷◌, [], length, IfOk, OnOk, OnErr};
ghost use Rattle.pulse_ids.specs.Ids.{numbered};
ghost use Rattle.pulse_ids.specs.Quantities.{greatest_of};
ghost use Rattle.pulse_ids.specs.declared.quantities.Quantity.TheVariants.{Wires};
ghost use Rattle.cell_netlist.specs.declared.lines.Cell.TheVariants as cells_of;
ghost use Rattle.cell_netlist.specs.Netlists.{number_of_wires, most_lines};
ghost use Rattle.splitter_trees.specs.Trees.{larger_half, smaller_half};
ghost use Rattle.splitter_trees.specs.Spreading.{IsSpread, GainsSplitters, with_cells};
ghost use Rattle.splitter_trees.specs.Branches.{HasBranch};

use crate::leaves::Leaves;
use cell_netlist::{Cell, Netlist};
use pulse_ids::{Ident, NoMemory, WireId};
use std::alloc::Global;

// A wire with the number of its readers.
#[derive(Clone, Copy)]
struct Branch {
    from: WireId,
    readers: u32,
}

/// Spreads a wire over its readers, of which there is at least one, by a balanced tree of splitters on new wires,
/// and answers the leaves of the tree from left to right. With one reader the wire itself is the leaf; with more,
/// a splitter comes first, then the tree of its left output for the larger half of the readers, then that of its
/// right output for the rest.
///
/// The wire is one of the netlist's. The number of wires with twice the readers is at most 4,194,304, and the number
/// of cells with the readers at most 2^27. Where memory is refused some splitters may have been added, and
/// all earlier lines stay. It takes time in the number of readers.
pub fn spread(
    alloc: Global,
    net: &mut Netlist,
    from: WireId,
    readers: u32,
) -> Result<Leaves, NoMemory>
    requires readers { 1 ≤ readers }
    requires from { from.number < number_of_wires net.old }
    requires wires { number_of_wires net.old + 2 * readers ≤ greatest_of Wires }
    requires cells { length net.old.cells + readers ≤ most_lines }
    ensures spread { IfOk result (λ leaves. IsSpread net.old net.new from.number readers leaves) }
    ensures refused { OnErr result (GainsSplitters net.old net.new) }
{
    let mut leaves = Leaves::with_room(alloc, readers)?;
    grow(net, Branch { from, readers }, &mut leaves)?;
    Ok(leaves)
}

// Adds the tree of a branch, and its leaves behind those that there are.
fn grow(net: &mut Netlist, branch: Branch, leaves: &mut Leaves) -> Result<(), NoMemory>
    requires readers { 1 ≤ branch.readers }
    requires from { branch.from.number < number_of_wires net.old }
    requires wires { number_of_wires net.old + 2 * branch.readers ≤ greatest_of Wires + 2 }
    requires cells { length net.old.cells + branch.readers ≤ most_lines }
    requires leaves { length leaves.old + branch.readers < 2 ^ 32 }
    ensures grown { OnOk result (HasBranch net.old net.new leaves.old leaves.new branch.from.number branch.readers) }
    ensures refused { OnErr result (GainsSplitters net.old net.new) }
{
    if branch.readers == 1 {
        return leaves.push(branch.from);
    }
    let (first, second) = fork(net, branch)?;
    grow(net, first, leaves)?;
    grow(net, second, leaves)
}

// Adds a splitter at a branch, and answers the two branches below it in the order in which they grow.
fn fork(net: &mut Netlist, branch: Branch) -> Result<(Branch, Branch), NoMemory>
    requires readers { 2 ≤ branch.readers }
    requires from { branch.from.number < number_of_wires net.old }
    requires wires { number_of_wires net.old + 2 ≤ greatest_of Wires }
    requires cells { length net.old.cells < most_lines }
    ensures added { OnOk result (net.new ≡ with_cells net.old (cells_of.Split branch.from (numbered (number_of_wires net.old)) (numbered (number_of_wires net.old + 1)) ∷ [])) }
    ensures wires { OnOk result (number_of_wires net.new ≡ number_of_wires net.old + 2) }
    ensures left { IfOk result (λ both. (both.0.from.number ≡ number_of_wires net.old) × (both.0.readers ≡ larger_half branch.readers)) }
    ensures right { IfOk result (λ both. (both.1.from.number ≡ number_of_wires net.old + 1) × (both.1.readers ≡ smaller_half branch.readers)) }
    ensures unchanged { OnErr result (net.new ≡ net.old) }
{
    let left = WireId::new(net.wires());
    let right = WireId::new(net.wires() + 1);
    net.add_cell(Cell::Split {
        from: branch.from,
        left,
        right,
    })?;
    let larger = Branch {
        from: left,
        readers: branch.readers - branch.readers / 2,
    };
    let smaller = Branch {
        from: right,
        readers: branch.readers / 2,
    };
    Ok((larger, smaller))
}
