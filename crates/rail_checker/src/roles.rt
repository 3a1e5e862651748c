//! DROCs that don't fit their roles, and backs with a wrong preload.

ghost use Rattle.std.specs.Prelude.{◌≡◌, ◌<◌, ℕ, false, None, not, is_some, IfOk, length, get_or, ◌==◌};
ghost use Rattle.pulse_ids.specs.Lists.{IsIn};
ghost use Rattle.cell_netlist.specs.declared.lines.Cell.{Cell};
ghost use Rattle.cell_netlist.specs.Netlists.{used, outs, reads};
ghost use Rattle.cell_netlist.specs.Decisions.{is_some_with, differ, number_on};
ghost use Rattle.dependency_order.specs.Orders.{IsOrderOf};
ghost use Rattle.rail_checker.specs.DrivingCells.{HoldsDrivers};
ghost use Rattle.rail_checker.specs.Needs.{dependencies_of};
ghost use Rattle.rail_checker.specs.Tables.{AreFronts, AreBacks, AreRoots, root_at, fits_by, has_equal_preload};
ghost use Rattle.rail_checker.specs.Verdicts.{IsFirst, PassesAt, IsJudged, IsClear};

use crate::links::{back_link, back_table, front_table, preload};
use crate::roots::root_table;
use cell_netlist::{Cell, Netlist, Role, Unsound, sound_decisions};
use dependency_order::Order;
use pulse_ids::{Bits, CellId, Ident, NoMemory, Row, WireId};
use std::alloc::Global;

/// The first refusal by the rules on roles and preloads.
pub(crate) fn roles_unsound(
    alloc: Global,
    net: &Netlist,
    drivers: &[CellId],
    order: &Order,
) -> Result<Option<Unsound>, NoMemory>
    requires clear { IsClear net.now 8 }
    requires drivers { HoldsDrivers net.now drivers.now }
    requires order { IsOrderOf (dependencies_of net.now drivers.now) order.now }
    ensures { IfOk result (λ found. IsJudged net.now 10 found) }
{
    let fronts = front_table(alloc, net)?;
    if let Some(unsound) = misfit(alloc, net, drivers, order, &fronts)? {
        return Ok(Some(unsound));
    }
    Ok(wrong_preload(net, &fronts))
}

/// The lowest DROC that doesn't fit its role.
fn misfit(
    alloc: Global,
    net: &Netlist,
    drivers: &[CellId],
    order: &Order,
    fronts: &Row<WireId, Option<bool>>,
) -> Result<Option<Unsound>, NoMemory>
    requires clear { IsClear net.now 8 }
    requires drivers { HoldsDrivers net.now drivers.now }
    requires order { IsOrderOf (dependencies_of net.now drivers.now) order.now }
    requires fronts { AreFronts net.now fronts.now }
    ensures { IfOk result (λ found. IsJudged net.now 9 found) }
{
    let backs = back_table(alloc, net)?;
    let roots = root_table(alloc, net, drivers, order)?;
    Ok(loose(net, fronts, &backs, &roots))
}

/// The lowest DROC that doesn't fit its role, by the tables.
fn loose(
    net: &Netlist,
    fronts: &Row<WireId, Option<bool>>,
    backs: &Bits<WireId>,
    roots: &Row<WireId, WireId>,
) -> Option<Unsound>
    requires clear { IsClear net.now 8 }
    requires fronts { AreFronts net.now fronts.now }
    requires backs { AreBacks net.now backs.now }
    requires roots { AreRoots net.now roots.now }
    ensures { IsJudged net.now 9 result }
{
    sound_decisions();
    let cell = first_loose(net.cells(), fronts, backs, roots)?;
    Some(Unsound::LooseDroc(CellId::new(cell)))
}

/// The lowest back whose preload is that of its front.
fn wrong_preload(net: &Netlist, fronts: &Row<WireId, Option<bool>>) -> Option<Unsound>
    requires clear { IsClear net.now 9 }
    requires fronts { AreFronts net.now fronts.now }
    ensures { IsJudged net.now 10 result }
{
    let cell = first_equal(net.cells(), fronts)?;
    Some(Unsound::WrongPreload(CellId::new(cell)))
}

fn first_loose(
    cells: &Row<CellId, Cell>,
    fronts: &Row<WireId, Option<bool>>,
    backs: &Bits<WireId>,
    roots: &Row<WireId, WireId>,
) -> Option<u32>
    requires outs { (cell : Cell) → IsIn cell cells.now → (wire : ℕ) → IsIn wire (outs cell) → wire < length backs.now }
    requires fronts { (cell : Cell) → IsIn cell cells.now → (wire : ℕ) → IsIn wire (reads cell) → wire < length fronts.now }
    requires roots { (cell : Cell) → IsIn cell cells.now → (wire : ℕ) → IsIn wire (reads cell) → wire < length roots.now }
    ensures { IsFirst (PassesAt (λ cell. not (fits_by fronts.now backs.now roots.now cell)) cells.now) result }
{
    for number in 0..cells.len() {
        if !fits(fronts, backs, roots, *cells.get(CellId::new(number))) {
            return Some(number);
        }
    }
    None
}

fn first_equal(cells: &Row<CellId, Cell>, fronts: &Row<WireId, Option<bool>>) -> Option<u32>
    requires { (cell : Cell) → IsIn cell cells.now → (wire : ℕ) → IsIn wire (reads cell) → wire < length fronts.now }
    ensures { IsFirst (PassesAt (has_equal_preload fronts.now) cells.now) result }
{
    for number in 0..cells.len() {
        if has_equal_preload(fronts, *cells.get(CellId::new(number))) {
            return Some(number);
        }
    }
    None
}

/// Whether a cell that is a DROC fits its role.
fn fits(
    fronts: &Row<WireId, Option<bool>>,
    backs: &Bits<WireId>,
    roots: &Row<WireId, WireId>,
    cell: Cell,
) -> bool
    requires outs { (wire : ℕ) → IsIn wire (outs cell) → wire < length backs.now }
    requires fronts { (wire : ℕ) → IsIn wire (reads cell) → wire < length fronts.now }
    requires roots { (wire : ℕ) → IsIn wire (reads cell) → wire < length roots.now }
    ensures { result ≡ fits_by fronts.now backs.now roots.now cell }
{
    match cell {
        Cell::Droc {
            role: Role::Front,
            q,
            n,
            ..
        } => n.is_none() && feeds_back(backs, q),
        Cell::Droc {
            role: Role::Back,
            feed,
            ..
        } => has_front(fronts, feed),
        Cell::Droc {
            role: Role::Const,
            feed,
            n,
            ..
        } => is_root(roots, n, feed),
        _ => true,
    }
}

/// Whether a used output is the feed of a back.
fn feeds_back(backs: &Bits<WireId>, output: Option<WireId>) -> bool
    requires { (wire : ℕ) → IsIn wire (used output) → wire < length backs.now }
    ensures { result ≡ is_some_with (λ link. get_or backs.now link false) (number_on output) }
{
    match output {
        Some(wire) => backs.get(wire),
        None => false,
    }
}

/// Whether a wire is the `q` of a front.
fn has_front(fronts: &Row<WireId, Option<bool>>, wire: WireId) -> bool
    requires { wire.number < length fronts.now }
    ensures { result ≡ is_some (get_or fronts.now wire.number None) }
{
    fronts.get(wire).is_some()
}

/// Whether a used output is the root of a wire.
fn is_root(roots: &Row<WireId, WireId>, output: Option<WireId>, wire: WireId) -> bool
    requires { wire.number < length roots.now }
    ensures { result ≡ is_some_with (λ own. own == root_at roots.now wire.number) (number_on output) }
{
    is_wire(output, *roots.get(wire))
}

/// Whether a used output is on this wire.
fn is_wire(output: Option<WireId>, wire: WireId) -> bool
    ensures { result ≡ is_some_with (λ own. own == wire.number) (number_on output) }
{
    match output {
        Some(own) => own == wire,
        None => false,
    }
}

/// Whether a cell is a back with the preload of its front.
fn has_equal_preload(fronts: &Row<WireId, Option<bool>>, cell: Cell) -> bool
    requires { (wire : ℕ) → IsIn wire (reads cell) → wire < length fronts.now }
    ensures { result ≡ has_equal_preload fronts.now cell }
{
    match back_link(cell) {
        Some(link) => is_equal(*fronts.get(link), preload(cell)),
        None => false,
    }
}

fn is_equal(front: Option<bool>, preload: bool) -> bool
    ensures { result ≡ is_some_with (λ front. not (differ front preload)) front }
{
    match front {
        Some(front) => front == preload,
        None => false,
    }
}
