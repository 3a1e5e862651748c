//! The links from fronts to backs: tables of the wires that are the `q` of a front, and of those that are the feed
//! of a back.

ghost use Rattle.std.specs.Prelude.{◌≡◌, ◌<◌, None, false, ℕ, IfOk, length};
ghost use Rattle.pulse_ids.specs.Lists.{IsIn};
ghost use Rattle.cell_netlist.specs.declared.lines.Cell.{Cell};
ghost use Rattle.cell_netlist.specs.Netlists.{outs, reads};
ghost use Rattle.cell_netlist.specs.Decisions.{number_on, link_of};
ghost use Rattle.cell_netlist.specs.RailEquations.{preload_of};
ghost use Rattle.rail_checker.specs.Tables.{through, with_front, with_back, back_feed, AreFronts, AreBacks};
ghost use Rattle.rail_checker.specs.Verdicts.{IsClear};

use cell_netlist::{Cell, Netlist, Role};
use pulse_ids::{Bits, CellId, Ident, NoMemory, Row, WireId};
use std::alloc::Global;

/// For each wire the preload of the front whose `q` it is.
pub(crate) fn front_table(
    alloc: Global,
    net: &Netlist,
) -> Result<Row<WireId, Option<bool>>, NoMemory>
    requires { IsClear net.now 4 }
    ensures { IfOk result (λ fronts. AreFronts net.now fronts) }
{
    let mut fronts = Row::filled(alloc, None, net.wires())?;
    put_fronts(net.cells(), &mut fronts);
    Ok(fronts)
}

/// For each wire whether it is the feed of a back.
pub(crate) fn back_table(alloc: Global, net: &Netlist) -> Result<Bits<WireId>, NoMemory>
    ensures { IfOk result (λ backs. AreBacks net.now backs) }
{
    let mut backs = Bits::filled(alloc, net.wires())?;
    put_backs(net.cells(), &mut backs);
    Ok(backs)
}

fn put_fronts(cells: &Row<CellId, Cell>, fronts: &mut Row<WireId, Option<bool>>)
    requires { (cell : Cell) → IsIn cell cells.now → (wire : ℕ) → IsIn wire (outs cell) → wire < length fronts.old }
    ensures { fronts.new ≡ through with_front fronts.old cells.now }
{
    for number in 0..cells.len() {
        put_front(*cells.get(CellId::new(number)), fronts);
    }
}

fn put_backs(cells: &Row<CellId, Cell>, backs: &mut Bits<WireId>)
    requires { (cell : Cell) → IsIn cell cells.now → (wire : ℕ) → IsIn wire (reads cell) → wire < length backs.old }
    ensures { backs.new ≡ through with_back backs.old cells.now }
{
    for number in 0..cells.len() {
        put_back(*cells.get(CellId::new(number)), backs);
    }
}

/// Writes the preload of a front at its `q`.
fn put_front(cell: Cell, fronts: &mut Row<WireId, Option<bool>>)
    requires { (wire : ℕ) → IsIn wire (outs cell) → wire < length fronts.old }
    ensures { fronts.new ≡ with_front fronts.old cell }
{
    if let Some(link) = front_link(cell) {
        fronts.set(link, Some(preload(cell)));
    }
}

/// Marks the feed of a back.
fn put_back(cell: Cell, backs: &mut Bits<WireId>)
    requires { (wire : ℕ) → IsIn wire (reads cell) → wire < length backs.old }
    ensures { backs.new ≡ with_back backs.old cell }
{
    if let Some(link) = back_link(cell) {
        backs.set(link, true);
    }
}

/// The `q` of a front.
fn front_link(cell: Cell) -> Option<WireId>
    ensures { number_on result ≡ link_of cell }
{
    match cell {
        Cell::Droc {
            role: Role::Front,
            q,
            ..
        } => q,
        _ => None,
    }
}

/// The feed of a back.
pub(crate) fn back_link(cell: Cell) -> Option<WireId>
    ensures { number_on result ≡ back_feed cell }
{
    match cell {
        Cell::Droc {
            role: Role::Back,
            feed,
            ..
        } => Some(feed),
        _ => None,
    }
}

/// The preload of a DROC, and 0 for other cells.
pub(crate) fn preload(cell: Cell) -> bool
    ensures { result ≡ preload_of cell }
{
    match cell {
        Cell::Droc { preload, .. } => preload,
        _ => false,
    }
}
