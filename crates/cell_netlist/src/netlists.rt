//! A netlist: its ports, rails, cells and state lines, and the names of its ports.

ghost use Rattle.std.specs.Prelude.{◌≡◌, ◌<◌, ◌≤◌, ◌+◌, max, ◌++◌, ◌∷◌, [], length, OnOk, OnErr, IfOk, slice_get, Some, option_copied};
ghost use Rattle.pulse_ids.specs.Quantities.{greatest_of};
ghost use Rattle.pulse_ids.specs.declared.quantities.Quantity.TheVariants.{Latches, Wires};
ghost use Rattle.pulse_ids.specs.Names.{IsPortName};
ghost use Rattle.cell_netlist.specs.Names.{IsAboveAll, HasRisingPorts, name_at};
ghost use Rattle.cell_netlist.specs.Netlists.{empty_netlist, versioned, number_of_wires, most_lines, IsNetlist, HasFewLines, wire_of, cell_bound, cells_with_feed, IsDrocUpTo};
ghost use Rattle.cell_netlist.specs.States.{IsAboveStates};
ghost use Rattle.cell_netlist.specs.declared.kinds.Version.TheVariants.{Two};

use crate::cell_wires::{bound_of, fed_by};
use crate::kinds::Version;
use crate::lines::{Cell, Rail, StateLine};
use pulse_ids::{CellId, Ident, Name, NoMemory, RailId, Row, WireId};
use std::alloc::Global;
use std::marker::Model;

/// A netlist is its version, its numbers of input and output ports, its input rails, cells, output rails and state
/// lines, and the names of its ports. Each list keeps the order in which lines were added.
#[derive(Debug, Drop)]
pub struct Netlist {
    inputs: u32,
    outputs: u32,
    input_rails: Row<RailId, Rail>,
    cells: Row<CellId, Cell>,
    output_rails: Row<RailId, Rail>,
    input_names: Vec<(u32, Name)>,
    output_names: Vec<(u32, Name)>,
    version: Version,
    states: Vec<StateLine>,
    wires: u32,
}

impl Model for Netlist {
    ghost use Rattle.cell_netlist.specs.Netlists.{PlainNetlist, netlist_of, with_states, IsKept};

    ghost Value = { PlainNetlist };

    ghost view = { λ net. with_states net.version net.states.items (netlist_of net.inputs net.outputs net.input_rails
        net.cells net.output_rails net.input_names.items net.output_names.items) };

    ghost invariant = { λ net. IsKept (with_states net.version net.states.items (netlist_of net.inputs net.outputs
        net.input_rails net.cells net.output_rails net.input_names.items net.output_names.items)) net.wires };
}

impl Netlist {
    /// A netlist of version one with these numbers of ports and no lines. It takes no memory.
    pub fn new(alloc: Global, inputs: u32, outputs: u32) -> Netlist
        ensures { result ≡ empty_netlist inputs outputs }
    {
        Netlist::versioned(alloc, Version::One, inputs, outputs)
    }

    /// A netlist of this version with these numbers of ports and no lines. It takes no memory.
    pub fn versioned(alloc: Global, version: Version, inputs: u32, outputs: u32) -> Netlist
        ensures { result ≡ versioned version inputs outputs }
    {
        Netlist {
            inputs,
            outputs,
            input_rails: Row::new(alloc),
            cells: Row::new(alloc),
            output_rails: Row::new(alloc),
            input_names: Vec::new(alloc),
            output_names: Vec::new(alloc),
            version,
            states: Vec::new(alloc),
            wires: 0,
        }
    }

    /// The version.
    pub fn version(&self) -> Version
        ensures { result ≡ self.now.version }
    {
        self.version
    }

    /// The number of input ports.
    pub fn inputs(&self) -> u32
        ensures { result ≡ self.now.inputs }
    {
        self.inputs
    }

    /// The number of output ports.
    pub fn outputs(&self) -> u32
        ensures { result ≡ self.now.outputs }
    {
        self.outputs
    }

    /// The input rails in order.
    pub fn input_rails(&self) -> &Row<RailId, Rail>
        ensures { result.now ≡ self.now.input_rails }
    {
        &self.input_rails
    }

    /// The cells in order.
    pub fn cells(&self) -> &Row<CellId, Cell>
        ensures { result.now ≡ self.now.cells }
    {
        &self.cells
    }

    /// The output rails in order.
    pub fn output_rails(&self) -> &Row<RailId, Rail>
        ensures { result.now ≡ self.now.output_rails }
    {
        &self.output_rails
    }

    /// The named input ports with their names, by rising ports.
    pub fn input_names(&self) -> &[(u32, Name)]
        ensures { result.now ≡ self.now.input_names }
    {
        self.input_names.as_slice()
    }

    /// The named output ports with their names, by rising ports.
    pub fn output_names(&self) -> &[(u32, Name)]
        ensures { result.now ≡ self.now.output_names }
    {
        self.output_names.as_slice()
    }

    /// The name of an input port. None exactly where the port has no name.
    pub fn input_name(&self, port: u32) -> Option<&Name>
        ensures { option_copied result ≡ name_at self.now.input_names port }
    {
        name_of(self.input_names.as_slice(), port)
    }

    /// The name of an output port. None exactly where the port has no name.
    pub fn output_name(&self, port: u32) -> Option<&Name>
        ensures { option_copied result ≡ name_at self.now.output_names port }
    {
        name_of(self.output_names.as_slice(), port)
    }

    /// The number of state lines.
    pub fn states(&self) -> u32
        ensures { result ≡ length self.now.states }
    {
        self.states.len() as u32
    }

    /// The state lines in order.
    pub fn state_lines(&self) -> &[StateLine]
        ensures { result.now ≡ self.now.states }
    {
        self.states.as_slice()
    }

    /// The state line of a number, which is below the number of state lines.
    pub fn state(&self, k: u32) -> StateLine
        requires { k < length self.now.states }
        ensures { slice_get self.now.states k ≡ Some result }
    {
        self.states[k as usize]
    }

    /// The number of wires: one more than the greatest wire number that stands in the netlist, and 0 where none
    /// stands. It is at most 4,194,304. Its clauses tell too what is so of every netlist: it has a text, and at
    /// most 2^27 lines of each kind.
    pub fn wires(&self) -> u32
        ensures value { result ≡ number_of_wires self.now }
        ensures netlist { IsNetlist self.now }
        ensures lines { HasFewLines self.now }
    {
        self.wires
    }

    /// Adds an input rail at the end and answers its number. The netlist has fewer than 2^27 input rails, and the
    /// wire is below 4,194,304. Where memory is refused the netlist is unchanged.
    pub fn add_input(&mut self, rail: Rail) -> Result<RailId, NoMemory>
        requires room { length self.old.input_rails < most_lines }
        requires wire { rail.wire.number < greatest_of Wires }
        ensures added { OnOk result (self.new ≡ record self.old { input_rails = self.old.input_rails ++ rail ∷ [] }) }
        ensures wires { OnOk result (number_of_wires self.new ≡ max (number_of_wires self.old) (wire_of rail + 1)) }
        ensures number { IfOk result (λ id. id.number ≡ length self.old.input_rails) }
        ensures unchanged { OnErr result (self.new ≡ self.old) }
    {
        let id = self.input_rails.push(rail)?;
        self.wires = self.wires.max(rail.wire.number() + 1);
        Ok(id)
    }

    /// Adds a cell at the end and answers its number. The netlist has fewer than 2^27 cells, and each wire of the
    /// cell is below 4,194,304. Where memory is refused the netlist is unchanged.
    pub fn add_cell(&mut self, cell: Cell) -> Result<CellId, NoMemory>
        requires room { length self.old.cells < most_lines }
        requires wires { cell_bound cell ≤ greatest_of Wires }
        ensures added { OnOk result (self.new ≡ record self.old { cells = self.old.cells ++ cell ∷ [] }) }
        ensures wires { OnOk result (number_of_wires self.new ≡ max (number_of_wires self.old) (cell_bound cell)) }
        ensures number { IfOk result (λ id. id.number ≡ length self.old.cells) }
        ensures unchanged { OnErr result (self.new ≡ self.old) }
    {
        let id = self.cells.push(cell)?;
        self.wires = self.wires.max(bound_of(cell));
        Ok(id)
    }

    /// Puts another feed on a DROC; all else stays. The cell is a DROC of the netlist whose present feed is not
    /// above the new one, so that the number of wires does not fall. The new feed is below 4,194,304.
    pub fn set_feed(&mut self, cell: CellId, feed: WireId)
        requires droc { IsDrocUpTo (slice_get self.old.cells cell.number) feed.number }
        requires wire { feed.number < greatest_of Wires }
        ensures fed { self.new ≡ record self.old { cells = cells_with_feed cell.number feed self.old.cells } }
        ensures wires { number_of_wires self.new ≡ max (number_of_wires self.old) (feed.number + 1) }
    {
        let fed = fed_by(feed, *self.cells.get(cell));
        self.cells.set(cell, fed);
        self.wires = self.wires.max(feed.number() + 1);
    }

    /// Adds an output rail at the end and answers its number. The netlist has fewer than 2^27 output rails, and the
    /// wire is below 4,194,304. Where memory is refused the netlist is unchanged.
    pub fn add_output(&mut self, rail: Rail) -> Result<RailId, NoMemory>
        requires room { length self.old.output_rails < most_lines }
        requires wire { rail.wire.number < greatest_of Wires }
        ensures added { OnOk result (self.new ≡ record self.old { output_rails = self.old.output_rails ++ rail ∷ [] }) }
        ensures wires { OnOk result (number_of_wires self.new ≡ max (number_of_wires self.old) (wire_of rail + 1)) }
        ensures number { IfOk result (λ id. id.number ≡ length self.old.output_rails) }
        ensures unchanged { OnErr result (self.new ≡ self.old) }
    {
        let id = self.output_rails.push(rail)?;
        self.wires = self.wires.max(rail.wire.number() + 1);
        Ok(id)
    }

    /// Adds a state line at the end. The version is two, and the latch is below 16,384 and above that of every state
    /// line before. Where memory is refused the netlist is unchanged.
    pub fn add_state(&mut self, line: StateLine) -> Result<(), NoMemory>
        requires version { self.old.version ≡ Two }
        requires limit { line.latch < greatest_of Latches }
        requires above { IsAboveStates line.latch self.old.states }
        ensures added { OnOk result (self.new ≡ record self.old { states = self.old.states ++ line ∷ [] }) }
        ensures unchanged { OnErr result (self.new ≡ self.old) }
    {
        self.states.push(line)?;
        Ok(())
    }

    /// Names an input port. The port is in range and above every input port named before, and the name has 1 to
    /// 1,023 bytes without LF. Where memory is refused the netlist is unchanged and the name is given up.
    pub fn name_input(&mut self, port: u32, name: Name) -> Result<(), NoMemory>
        requires range { port < self.old.inputs }
        requires above { IsAboveAll port self.old.input_names }
        requires name { IsPortName name }
        ensures named { OnOk result (self.new ≡ record self.old { input_names = self.old.input_names ++ (port, name) ∷ [] }) }
        ensures unchanged { OnErr result (self.new ≡ self.old) }
    {
        self.input_names.push((port, name))?;
        Ok(())
    }

    /// Names an output port. The port is in range and above every output port named before, and the name has 1 to
    /// 1,023 bytes without LF. Where memory is refused the netlist is unchanged and the name is given up.
    pub fn name_output(&mut self, port: u32, name: Name) -> Result<(), NoMemory>
        requires range { port < self.old.outputs }
        requires above { IsAboveAll port self.old.output_names }
        requires name { IsPortName name }
        ensures named { OnOk result (self.new ≡ record self.old { output_names = self.old.output_names ++ (port, name) ∷ [] }) }
        ensures unchanged { OnErr result (self.new ≡ self.old) }
    {
        self.output_names.push((port, name))?;
        Ok(())
    }
}

// The name of a port among names of rising ports.
fn name_of(names: &[(u32, Name)], port: u32) -> Option<&Name>
    requires { HasRisingPorts names.now }
    ensures { option_copied result ≡ name_at names.now port }
{
    match names.binary_search_by_key(&port, |named| named.0) {
        Ok(at) => Some(&names[at].1),
        Err(_) => None,
    }
}
