//! Where a line may stand.

ghost use Rattle.std.specs.Prelude.{◌≡◌};
ghost use Rattle.cell_netlist.specs.Names.{HasRisingPorts};
ghost use Rattle.cell_netlist.specs.States.{AreStatesOf};
ghost use Rattle.netlist_reader.specs.Places.{rank, section_of, is_above, is_above_states, fits_state, fits_behind};
ghost use Rattle.netlist_reader.specs.Building.{follows};

use crate::statements::Statement;
use cell_netlist::{Netlist, StateLine, Version};
use pulse_ids::Name;

/// The sections of a text, in order: a line stands in that of what it says.
#[derive(Clone, Copy, Debug, PartialEq, Eq)]
pub enum Section {
    Version,
    Ports,
    InputRails,
    Cells,
    OutputRails,
    States,
    InputNames,
    OutputNames,
    End,
}

/// Its place among the sections, from 0.
pub(crate) fn rank(section: Section) -> u8
    ensures { result ≡ rank section }
{
    match section {
        Section::Version => 0,
        Section::Ports => 1,
        Section::InputRails => 2,
        Section::Cells => 3,
        Section::OutputRails => 4,
        Section::States => 5,
        Section::InputNames => 6,
        Section::OutputNames => 7,
        Section::End => 8,
    }
}

pub(crate) fn section_of(statement: Statement) -> Section
    ensures { result ≡ section_of statement }
{
    match statement {
        Statement::Version(_) => Section::Version,
        Statement::Ports(_, _) => Section::Ports,
        Statement::Input(_) => Section::InputRails,
        Statement::OneCell(_) => Section::Cells,
        Statement::Output(_) => Section::OutputRails,
        Statement::State(_) => Section::States,
        Statement::InputName(_) => Section::InputNames,
        Statement::OutputName(_) => Section::OutputNames,
        Statement::End => Section::End,
    }
}

/// Whether a line of a section may stand right behind one of the last section.
pub(crate) fn follows(last: Option<Section>, section: Section) -> bool
    ensures { result ≡ follows last section }
{
    match last {
        None => rank(section) == 0,
        Some(Section::Version) => rank(section) == 1,
        Some(last) => 2 <= rank(section) && rank(last) <= rank(section),
    }
}

/// Whether a port is above all that are named.
fn is_above(port: u32, names: &[(u32, Name)]) -> bool
    requires { HasRisingPorts names.now }
    ensures { result ≡ is_above port names.now }
{
    match names.last() {
        None => true,
        Some(named) => named.0 < port,
    }
}

/// Whether a latch is above that of every state line.
fn is_above_states(version: Version, latch: u32, lines: &[StateLine]) -> bool
    requires { AreStatesOf version lines.now }
    ensures { result ≡ is_above_states latch lines.now }
{
    match lines.last() {
        None => true,
        Some(last) => last.latch < latch,
    }
}

/// Whether a state line of this latch fits behind those of a netlist, which is of version two.
fn fits_state(net: &Netlist, latch: u32) -> bool
    ensures { result ≡ fits_state net.now latch }
{
    let _ = net.wires();
    let version = net.version();
    match version {
        Version::One => false,
        Version::Two => is_above_states(version, latch, net.state_lines()),
    }
}

/// Whether what a statement says fits behind the lines so far: a state line stands in version two, and its latch is
/// above those before; a named port is in range, and above all that are named on its side.
pub(crate) fn fits_behind(net: &Netlist, statement: Statement) -> bool
    ensures { result ≡ fits_behind net.now statement }
{
    let _ = net.wires();
    match statement {
        Statement::State(state) => fits_state(net, state.latch),
        Statement::InputName(port) => port < net.inputs() && is_above(port, net.input_names()),
        Statement::OutputName(port) => port < net.outputs() && is_above(port, net.output_names()),
        _ => true,
    }
}
