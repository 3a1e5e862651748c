//! Input rails and their trees.

ghost use Rattle.std.specs.Prelude.{◌≡◌, ◌≤◌, ◌<◌, ◌+◌, ◌^◌, length, OnOk, IfOk, nat_lt};
ghost use Rattle.cell_netlist.specs.Netlists.{number_of_wires};
ghost use Rattle.droc_pairs.specs.Pairs.{wires_for};
ghost use Rattle.rail_mapper.specs.Drafts.{readers_of, HasRoom};
ghost use Rattle.rail_mapper.specs.InputStages.{AddsInput};
ghost use Rattle.rail_mapper.specs.Labels.{rail_number};
ghost use Rattle.rail_mapper.specs.Stages.{GrowsIf};

use crate::drafts::Draft;
use crate::rails::rail_of;
use cell_netlist::Rail;
use pulse_ids::{Ident, NoMemory, Sign, WireId};
use std::alloc::Global;

impl Draft {
    /// The number of input ports.
    pub(crate) fn inputs(&self) -> u32
        ensures { result ≡ self.now.net.inputs }
    {
        self.net.inputs()
    }

    /// Adds the rail of an input port on the next wire, where it is to be read.
    pub(crate) fn add_input(&mut self, port: u32, sign: Sign) -> Result<(), NoMemory>
        requires port { port < 2 ^ 20 }
        requires place { rail_number (1 + port) sign < length self.old.counts }
        requires each { length self.old.net.input_rails ≡ number_of_wires self.old.net }
        requires room { HasRoom 1 self.old }
        ensures { OnOk result (AddsInput port sign self.old self.new) }
    {
        if self.readers(rail_of(1 + port, sign)) == 0 {
            return Ok(());
        }
        let wire = WireId::new(self.net.wires());
        self.net.add_input(Rail { port, sign, wire })?;
        Ok(())
    }

    /// Spreads the rail of an input from its wire, where it is to be read, and answers the wire of the next one.
    pub(crate) fn grow_input(
        &mut self,
        alloc: Global,
        rail: u32,
        wire: u32,
    ) -> Result<u32, NoMemory>
        requires root { 1 ≤ readers_of self.old rail → wire < number_of_wires self.old.net }
        requires place { rail < length self.old.stock }
        requires counter { rail < length self.old.counts }
        requires room { HasRoom (2 ^ 16) self.old }
        ensures grows { OnOk result (GrowsIf rail wire self.old self.new) }
        ensures room { OnOk result (HasRoom (2 ^ 16) self.new) }
        ensures next { IfOk result (λ next. next ≡ wire + wires_for (nat_lt 0 (readers_of self.old rail))) }
    {
        if self.readers(rail) == 0 {
            return Ok(wire);
        }
        self.grow(alloc, rail, WireId::new(wire))?;
        Ok(wire + 1)
    }
}
