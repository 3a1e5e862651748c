//! State lines that name no back, or a cell that an earlier one names.

ghost use Rattle.std.specs.Prelude.{◌≡◌, true, false, IfOk, length, replicate, slice_get, slice_set};
ghost use Rattle.cell_netlist.specs.Decisions.{is_some_with, is_back};
ghost use Rattle.cell_netlist.specs.Sound.{Breaks};
ghost use Rattle.cell_netlist.specs.declared.unsound.Unsound.TheVariants.{LooseState};
ghost use Rattle.rail_checker.specs.Verdicts.{IsFirst, IsJudged, IsClear};
ghost use Rattle.rail_checker.specs.States.{is_new_back};

use cell_netlist::{Cell, Netlist, Role, Unsound};
use pulse_ids::{Bits, CellId, Ident, NoMemory, Row};
use std::alloc::Global;

/// The first refusal by the rule on state lines.
pub(crate) fn states_unsound(alloc: Global, net: &Netlist) -> Result<Option<Unsound>, NoMemory>
    requires { IsClear net.now 10 }
    ensures { IfOk result (λ found. IsJudged net.now 11 found) }
{
    if net.states() == 0 {
        return Ok(loose_state(net, None));
    }
    let mut named = Bits::filled(alloc, net.cells().len())?;
    Ok(loose_state(net, first_loose(net, &mut named)))
}

/// The refusal of the lowest state line that is loose.
fn loose_state(net: &Netlist, found: Option<u32>) -> Option<Unsound>
    requires clear { IsClear net.now 10 }
    requires found { IsFirst (λ k. Breaks net.now (LooseState k)) found }
    ensures { IsJudged net.now 11 result }
{
    let k = found?;
    Some(Unsound::LooseState(k))
}

/// The lowest state line that names no back, or a cell that an earlier one names. It marks the cells that are named.
fn first_loose(net: &Netlist, named: &mut Bits<CellId>) -> Option<u32>
    requires { named.old ≡ replicate (length net.now.cells) false }
    ensures { IsFirst (λ k. Breaks net.now (LooseState k)) result }
{
    for k in 0..net.states() {
        if !mark(net.cells(), named, net.state(k).cell) {
            return Some(k);
        }
    }
    None
}

/// Whether a cell is a back that isn't marked. Then it is marked.
fn mark(cells: &Row<CellId, Cell>, named: &mut Bits<CellId>, cell: CellId) -> bool
    requires { length named.old ≡ length cells.now }
    ensures value { result ≡ is_new_back cells.now named.old cell.number }
    ensures marked { result ≡ true → named.new ≡ slice_set named.old cell.number true }
{
    if !is_back_at(cells, cell) {
        return false;
    }
    let new = !named.get(cell);
    named.set(cell, true);
    new
}

/// Whether there is a cell of this number, and it is a back.
fn is_back_at(cells: &Row<CellId, Cell>, cell: CellId) -> bool
    ensures { result ≡ is_some_with is_back (slice_get cells.now cell.number) }
{
    match cells.try_get(cell.number()) {
        Some(
            Cell::Droc {
                role: Role::Back,
                ..
            },
        ) => true,
        _ => false,
    }
}
