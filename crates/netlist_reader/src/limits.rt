//! The limits that a line is judged against, from the left.

ghost use Rattle.std.specs.Prelude.{◌≡◌};
ghost use Rattle.netlist_reader.specs.Limits.{over, over_wire, over_output, over_cell, over_latch, over_name, limit_of};

use crate::statements::Statement;
use crate::words::name_in;
use cell_netlist::Cell;
use pulse_ids::{Ident, Quantity, WireId};

fn over(quantity: Quantity, count: u64) -> Option<Quantity>
    ensures { result ≡ over quantity count }
{
    if count > quantity.greatest() {
        Some(quantity)
    } else {
        None
    }
}

fn over_wire(wire: WireId) -> Option<Quantity>
    ensures { result ≡ over_wire wire }
{
    if (wire.number() as u64) < Quantity::Wires.greatest() {
        None
    } else {
        Some(Quantity::Wires)
    }
}

fn over_output(output: Option<WireId>) -> Option<Quantity>
    ensures { result ≡ over_output output }
{
    match output {
        None => None,
        Some(wire) => over_wire(wire),
    }
}

fn over_cell(cell: Cell) -> Option<Quantity>
    ensures { result ≡ over_cell cell }
{
    match cell {
        Cell::La { a, b, out } | Cell::Fa { a, b, out } => {
            over_wire(a).or(over_wire(b).or(over_wire(out)))
        }
        Cell::Split { from, left, right } => {
            over_wire(from).or(over_wire(left).or(over_wire(right)))
        }
        Cell::Droc { feed, q, n, .. } => { over_wire(feed).or(over_output(q).or(over_output(n))) }
    }
}

fn over_latch(latch: u32) -> Option<Quantity>
    ensures { result ≡ over_latch latch }
{
    if (latch as u64) < Quantity::Latches.greatest() {
        None
    } else {
        Some(Quantity::Latches)
    }
}

fn over_name(line: &[u8]) -> Option<Quantity>
    ensures { result ≡ over_name line.now }
{
    over(Quantity::NameBytes, name_in(line).len() as u64)
}

/// The first limit that a line of this statement passes, from the left.
pub(crate) fn limit_of(line: &[u8], statement: Statement) -> Option<Quantity>
    ensures { result ≡ limit_of line.now statement }
{
    match statement {
        Statement::Ports(inputs, outputs) => {
            over(Quantity::Inputs, inputs as u64).or(over(Quantity::Outputs, outputs as u64))
        }
        Statement::Input(rail) | Statement::Output(rail) => over_wire(rail.wire),
        Statement::OneCell(cell) => over_cell(cell),
        Statement::State(state) => over_latch(state.latch),
        Statement::InputName(_) | Statement::OutputName(_) => over_name(line),
        Statement::Version(_) | Statement::End => None,
    }
}
