//! The names of a machine's ports.

ghost use Rattle.std.specs.Prelude.{◌≡◌, ◌<◌, [], IfSome, OnOk};
ghost use Rattle.pulse_ids.specs.Names.{IsPortName};
ghost use Rattle.source_machine.specs.Fitting.{NamesFit};
ghost use Rattle.cell_netlist.specs.Names.{IsAboveAll};
ghost use Rattle.rail_mapper.specs.Naming.{NamesOne, NamesInputs, NamesOutputs};

use cell_netlist::Netlist;
use pulse_ids::{Name, NoMemory};

// Names an input port, where it has a name.
fn name_input(net: &mut Netlist, port: u32, name: &Option<Name>) -> Result<(), NoMemory>
    requires range { port < net.old.inputs }
    requires above { IsAboveAll port net.old.input_names }
    requires name { IfSome name.now IsPortName }
    ensures named { OnOk result (NamesOne port name.now net.old.input_names net.new.input_names) }
    ensures others { OnOk result (net.new ≡ record net.old { input_names = net.new.input_names }) }
{
    match name {
        Some(name) => net.name_input(port, name.clone()?),
        None => Ok(()),
    }
}

/// Names the input ports that have names.
pub(crate) fn name_inputs(net: &mut Netlist, names: &[Option<Name>]) -> Result<(), NoMemory>
    requires fit { NamesFit net.old.inputs names.now }
    requires unnamed { net.old.input_names ≡ [] }
    ensures { OnOk result (NamesInputs names.now net.old net.new) }
{
    for port in 0..net.inputs() {
        name_input(net, port, &names[port as usize])?;
    }
    Ok(())
}

// Names an output port, where it has a name.
fn name_output(net: &mut Netlist, port: u32, name: &Option<Name>) -> Result<(), NoMemory>
    requires range { port < net.old.outputs }
    requires above { IsAboveAll port net.old.output_names }
    requires name { IfSome name.now IsPortName }
    ensures named { OnOk result (NamesOne port name.now net.old.output_names net.new.output_names) }
    ensures others { OnOk result (net.new ≡ record net.old { output_names = net.new.output_names }) }
{
    match name {
        Some(name) => net.name_output(port, name.clone()?),
        None => Ok(()),
    }
}

/// Names the output ports that have names.
pub(crate) fn name_outputs(net: &mut Netlist, names: &[Option<Name>]) -> Result<(), NoMemory>
    requires fit { NamesFit net.old.outputs names.now }
    requires unnamed { net.old.output_names ≡ [] }
    ensures { OnOk result (NamesOutputs names.now net.old net.new) }
{
    for port in 0..net.outputs() {
        name_output(net, port, &names[port as usize])?;
    }
    Ok(())
}
