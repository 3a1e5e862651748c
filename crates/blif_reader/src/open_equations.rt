//! Equations to which rows may still come.

use crate::rows::{are_marks, read_row};
use pulse_ids::{NetId, NoMemory};
use source_machine::Equation;
use std::alloc::Global;
use std::marker::Model;

/// An equation to which rows may still come, and the nets of its columns.
#[derive(Debug, Drop)]
pub struct OpenEquation {
    equation: Equation,
    columns: Vec<NetId>,
}

impl Model for OpenEquation {
    ghost use Rattle.std.specs.Prelude.{map, ◌<◌, ◌^◌};
    ghost use Rattle.std.specs.List.{All};
    ghost use Rattle.source_machine.specs.Machines.{equation_of};
    ghost use Rattle.blif_reader.specs.States as states;

    ghost Value = { states.OpenEquation };

    ghost view = { λ unended. record {
      equation = equation_of unended.equation;
      columns = map (λ net. net.number) unended.columns.items;
    } };

    ghost invariant = { λ unended. All (λ net. net.number < 2 ^ 31) unended.columns.items × (unended.equation.net.number < 2 ^ 31) };
}

impl OpenEquation {
    ghost use Rattle.std.specs.Prelude.{◌≡◌, ◌<◌, ◌≤◌, ◌^◌, ◌==◌, ◌&&◌, not, true, Some, OnOk, length};
    ghost use Rattle.std.specs.Bool.{beq};
    ghost use Rattle.blif_reader.specs.States.{begun_equation, with_column};
    ghost use Rattle.blif_reader.specs.Statements.{has_rows, with_row};
    ghost use Rattle.blif_reader.specs.Rows.{are_marks, cares_in};
    ghost use Rattle.source_machine.specs.Machines.{equation_of};

    /// The equation of a net without columns and rows. It takes no memory.
    pub(crate) fn new(alloc: Global, net: NetId) -> OpenEquation
        requires { net.number < 2 ^ 31 }
        ensures { result ≡ begun_equation net.number }
    {
        OpenEquation {
            equation: Equation::bare(alloc, net, true),
            columns: Vec::new(alloc),
        }
    }

    /// Makes the net so far a column, and gives the equation another net.
    pub(crate) fn add_column(&mut self, net: NetId) -> Result<(), NoMemory>
        requires { net.number < 2 ^ 31 }
        ensures { OnOk result (self.new ≡ with_column (Some self.old) net.number) }
    {
        self.columns.push(self.equation.net)?;
        self.equation.net = net;
        Ok(())
    }

    /// Whether it has no columns.
    pub(crate) fn is_constant(&self) -> bool
        ensures { result ≡ (length self.now.columns == 0) }
    {
        self.columns.is_empty()
    }

    /// Whether there is a mark for each column.
    pub(crate) fn fits(&self, marks: &[u8]) -> bool
        ensures { result ≡ are_marks (length self.now.columns) marks.now }
    {
        are_marks(self.columns.len(), marks)
    }

    /// Whether rows came that end in another bit.
    pub(crate) fn differs(&self, bit: bool) -> bool
        ensures { result ≡ (has_rows self.now.equation.cubes && not (beq self.now.equation.on bit)) }
    {
        !self.equation.rows.is_empty() && self.equation.on != bit
    }

    /// Adds a row with these marks, which gives the equation this bit.
    pub(crate) fn add_row(&mut self, alloc: Global, marks: &[u8], bit: bool) -> Result<(), NoMemory>
        requires marks { are_marks (length self.old.columns) marks.now ≡ true }
        requires few { cares_in marks.now < 2 ^ 31 }
        ensures { OnOk result (self.new ≡ with_row self.old bit marks.now) }
    {
        let row = read_row(alloc, self.columns.as_slice(), marks)?;
        self.make_room()?;
        self.equation.on = bit;
        self.equation.add_row(row)
    }

    // Makes room for the first row and no more: most equations have one.
    fn make_room(&mut self) -> Result<(), NoMemory>
        ensures { self.new ≡ self.old }
    {
        if self.equation.rows.is_empty() {
            self.equation.rows.reserve_exact(1)?;
        }
        Ok(())
    }

    /// The equation, to which no further rows come.
    pub(crate) fn into_equation(self) -> Equation
        ensures { equation_of result ≡ self.equation }
    {
        self.equation
    }
}
