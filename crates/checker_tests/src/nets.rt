//! Netlists by the numbers of their wires, and what the checker says of them.

ghost use Rattle.std.specs.Prelude.{◌≤◌, ◌<◌};
ghost use Rattle.pulse_ids.specs.Quantities.{greatest_of};
ghost use Rattle.pulse_ids.specs.declared.quantities.Quantity.TheVariants.{Wires};
ghost use Rattle.cell_netlist.specs.Netlists.{cell_bound, wire_bound, used};

use cell_netlist::{Cell, Netlist, Rail, Role, Unsound};
use pulse_ids::{Ident, NoMemory, Sign, WireId};
use rail_checker::{Refused, check};
use std::alloc::Global;

/// The greatest number of lines of each kind.
const MOST_LINES: u32 = 1 << 27;

/// The greatest number of a wire.
const LAST_WIRE: u32 = 4_194_303;

/// A rail by its port, sign and wire.
pub(crate) type RailLine = (u32, Sign, u32);

/// A cell by the numbers of its wires.
#[derive(Clone, Copy, Debug)]
pub(crate) enum CellLine {
    La(u32, u32, u32),
    Fa(u32, u32, u32),
    Split(u32, u32, u32),
    Droc(Role, bool, u32, Option<u32>, Option<u32>),
}

/// The wire of a number, which is below 4,194,304.
fn wire(number: u32) -> WireId
    ensures { result.number < greatest_of Wires }
{
    WireId::new(number.min(LAST_WIRE))
}

fn output(number: Option<u32>) -> Option<WireId>
    ensures { wire_bound (used result) ≤ greatest_of Wires }
{
    match number {
        Some(number) => Some(wire(number)),
        None => None,
    }
}

fn rail(line: RailLine) -> Rail
    ensures { result.wire.number < greatest_of Wires }
{
    let (port, sign, number) = line;
    Rail {
        port,
        sign,
        wire: wire(number),
    }
}

fn cell(line: CellLine) -> Cell
    ensures { cell_bound result ≤ greatest_of Wires }
{
    match line {
        CellLine::La(a, b, out) => Cell::La {
            a: wire(a),
            b: wire(b),
            out: wire(out),
        },
        CellLine::Fa(a, b, out) => Cell::Fa {
            a: wire(a),
            b: wire(b),
            out: wire(out),
        },
        CellLine::Split(from, left, right) => Cell::Split {
            from: wire(from),
            left: wire(left),
            right: wire(right),
        },
        CellLine::Droc(role, preload, feed, q, n) => Cell::Droc {
            role,
            preload,
            feed: wire(feed),
            q: output(q),
            n: output(n),
        },
    }
}

/// Adds an input rail, where there is room.
pub(crate) fn add_input(net: &mut Netlist, line: RailLine) -> Result<(), NoMemory> {
    if net.input_rails().len() < MOST_LINES {
        net.add_input(rail(line))?;
    }
    Ok(())
}

/// Adds a cell, where there is room.
pub(crate) fn add_cell(net: &mut Netlist, line: CellLine) -> Result<(), NoMemory> {
    if net.cells().len() < MOST_LINES {
        net.add_cell(cell(line))?;
    }
    Ok(())
}

/// Adds an output rail, where there is room.
pub(crate) fn add_output(net: &mut Netlist, line: RailLine) -> Result<(), NoMemory> {
    if net.output_rails().len() < MOST_LINES {
        net.add_output(rail(line))?;
    }
    Ok(())
}

/// What the checker names, or none where the netlist is sound.
pub(crate) fn verdict(alloc: Global, net: Netlist) -> Result<Option<Unsound>, NoMemory> {
    match check(alloc, net) {
        Ok(_sound) => Ok(None),
        Err(Refused::Unsound(_back, unsound)) => Ok(Some(unsound)),
        Err(Refused::NoMemory(_back)) => Err(NoMemory),
    }
}
