//! Output rails.

ghost use Rattle.std.specs.Prelude.{◌≡◌, ◌≤◌, ◌<◌, length, OnOk};
ghost use Rattle.pulse_ids.specs.Quantities.{greatest_of};
ghost use Rattle.pulse_ids.specs.declared.quantities.Quantity.TheVariants.{Wires};
ghost use Rattle.cell_netlist.specs.Asked.{signs_of};
ghost use Rattle.cell_netlist.specs.Netlists.{number_of_wires, most_lines};
ghost use Rattle.rail_mapper.specs.Drafts.{leaves_of, AreInside};
ghost use Rattle.rail_mapper.specs.OutputStages.{CanPut, PutsOutputs};
ghost use Rattle.rail_mapper.specs.Stages.{Outputs};

use crate::drafts::Draft;
use crate::rails::literal_rail;
use cell_netlist::{Ask, Netlist, Rail};
use pulse_ids::{NoMemory, NodeLit, Sign};

impl Draft {
    /// Adds an output rail, which takes the next leaf of a rail.
    fn put_output(&mut self, rail: u32, port: u32, sign: Sign) -> Result<(), NoMemory>
        requires leaf { 1 ≤ length (leaves_of self.old rail) }
        requires inside { AreInside self.old }
        requires wires { number_of_wires self.old.net ≤ greatest_of Wires }
        requires few { length self.old.net.output_rails < most_lines }
        ensures { OnOk result (Outputs rail port sign self.old self.new) }
    {
        let wire = self.take(rail);
        self.net.add_output(Rail { port, sign, wire })?;
        Ok(())
    }

    /// Adds the asked output rails of a port, the positive before the negative one.
    pub(crate) fn put_outputs(
        &mut self,
        literal: NodeLit,
        port: u32,
        ask: Ask,
    ) -> Result<(), NoMemory>
        requires { CanPut literal (signs_of ask) self.old }
        ensures { OnOk result (PutsOutputs literal port (signs_of ask) self.old self.new) }
    {
        match ask {
            Ask::Pos => self.put_output(literal_rail(literal, Sign::Pos), port, Sign::Pos),
            Ask::Neg => self.put_output(literal_rail(literal, Sign::Neg), port, Sign::Neg),
            Ask::Both => {
                self.put_output(literal_rail(literal, Sign::Pos), port, Sign::Pos)?;
                self.put_output(literal_rail(literal, Sign::Neg), port, Sign::Neg)
            }
        }
    }

    /// The netlist alone.
    pub(crate) fn into_net(self) -> Netlist
        ensures { result ≡ self.net }
    {
        self.net
    }
}
