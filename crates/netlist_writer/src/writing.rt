//! The sections of a netlist's text, and the text.

ghost use Rattle.std.specs.Prelude.{IsFalse};
ghost use Rattle.std.specs.List.{flat_map};
ghost use Rattle.byte_ports.specs.Writing.{WritesText};
ghost use Rattle.cell_netlist.specs.Text.{text_of};
ghost use Rattle.netlist_writer.specs.Texts.{cell_line, circuit_text, head_text, later_text, name_line, names_text, rail_line, state_line};

use crate::lines::{write_cell, write_line, write_name, write_rail, write_state, write_version};
use crate::words::Word;
use byte_ports::{Failed, Sink};
use cell_netlist::{Cell, Netlist, Rail, StateLine};
use pulse_ids::Name;

fn write_rails<K: Sink>(out: &mut K, side: &[u8], rails: &[Rail]) -> Result<(), Failed>
    ensures written { WritesText (K.taken out.old) (K.taken out.new) (K.faults out.old) (K.faults out.new) result (flat_map (rail_line side.now) rails.now) }
    ensures unflushed { IsFalse (K.flushed out.old) → IsFalse (K.flushed out.new) }
{
    for rail in rails {
        write_rail(out, side, *rail)?;
    }
    Ok(())
}

fn write_cells<K: Sink>(out: &mut K, cells: &[Cell]) -> Result<(), Failed>
    ensures written { WritesText (K.taken out.old) (K.taken out.new) (K.faults out.old) (K.faults out.new) result (flat_map cell_line cells.now) }
    ensures unflushed { IsFalse (K.flushed out.old) → IsFalse (K.flushed out.new) }
{
    for cell in cells {
        write_cell(out, *cell)?;
    }
    Ok(())
}

fn write_states<K: Sink>(out: &mut K, states: &[StateLine]) -> Result<(), Failed>
    ensures written { WritesText (K.taken out.old) (K.taken out.new) (K.faults out.old) (K.faults out.new) result (flat_map state_line states.now) }
    ensures unflushed { IsFalse (K.flushed out.old) → IsFalse (K.flushed out.new) }
{
    for state in states {
        write_state(out, *state)?;
    }
    Ok(())
}

fn write_names<K: Sink>(out: &mut K, side: &[u8], names: &[(u32, Name)]) -> Result<(), Failed>
    ensures written { WritesText (K.taken out.old) (K.taken out.new) (K.faults out.old) (K.faults out.new) result (flat_map (name_line side.now) names.now) }
    ensures unflushed { IsFalse (K.flushed out.old) → IsFalse (K.flushed out.new) }
{
    for named in names {
        write_name(out, side, named)?;
    }
    Ok(())
}

/// The first two lines.
fn write_head<K: Sink>(net: &Netlist, out: &mut K) -> Result<(), Failed>
    ensures written { WritesText (K.taken out.old) (K.taken out.new) (K.faults out.old) (K.faults out.new) result (head_text net.now) }
    ensures unflushed { IsFalse (K.flushed out.new) }
{
    write_version(out, net.version())?;
    write_line(
        out,
        b"ports",
        &[Word::Number(net.inputs()), Word::Number(net.outputs())],
    )
}

/// The lines of rails and cells.
fn write_circuit<K: Sink>(net: &Netlist, out: &mut K) -> Result<(), Failed>
    ensures written { WritesText (K.taken out.old) (K.taken out.new) (K.faults out.old) (K.faults out.new) result (circuit_text net.now) }
    ensures unflushed { IsFalse (K.flushed out.old) → IsFalse (K.flushed out.new) }
{
    write_rails(out, b"input", net.input_rails().items())?;
    write_cells(out, net.cells().items())?;
    write_rails(out, b"output", net.output_rails().items())
}

/// The lines of names.
fn write_both_names<K: Sink>(net: &Netlist, out: &mut K) -> Result<(), Failed>
    ensures written { WritesText (K.taken out.old) (K.taken out.new) (K.faults out.old) (K.faults out.new) result (names_text net.now) }
    ensures unflushed { IsFalse (K.flushed out.old) → IsFalse (K.flushed out.new) }
{
    write_names(out, b"iname", net.input_names())?;
    write_names(out, b"oname", net.output_names())
}

/// The lines behind those of rails and cells, but for the last.
fn write_later<K: Sink>(net: &Netlist, out: &mut K) -> Result<(), Failed>
    ensures written { WritesText (K.taken out.old) (K.taken out.new) (K.faults out.old) (K.faults out.new) result (later_text net.now) }
    ensures unflushed { IsFalse (K.flushed out.old) → IsFalse (K.flushed out.new) }
{
    write_states(out, net.state_lines())?;
    write_both_names(net, out)
}

/// Writes the one text of a netlist: its version and ports, input rails, cells, output rails, state lines and names, and
/// its last line.
/// It takes no memory. Each word and each space is a piece of its own, so a slow sink is best buffered. The sink
/// isn't flushed.
///
/// Errors: `Failed` only where the sink's count of faults rose. Then a prefix of the text was taken.
pub fn write_netlist<K: Sink>(net: &Netlist, out: &mut K) -> Result<(), Failed>
    ensures written { WritesText (K.taken out.old) (K.taken out.new) (K.faults out.old) (K.faults out.new) result (text_of net.now) }
    ensures unflushed { IsFalse (K.flushed out.new) }
{
    write_head(net, out)?;
    write_circuit(net, out)?;
    write_later(net, out)?;
    write_line(out, b"end", &[])
}
