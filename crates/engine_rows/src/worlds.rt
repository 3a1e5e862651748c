//! Calls of a world.

ghost use Rattle.std.specs.Prelude.{◌≡◌};

use crate::playing::parted;
use anyhow::{Context, Result, bail};
use byte_ports::{Failed, MemorySink, write_all};
use cell_netlist::{Netlist, Phase, SoundNet};
use netlist_reader::NetReader;
use pulse_ids::{CellId, Ident, NoMemory, RailId, WireId};
use pulse_world::World;
use rail_checker::check;
use std::alloc::Global;
use text_pieces::write_numbered;

/// The netlist of a text, which the checker finds sound.
pub(crate) fn netlist_of(alloc: Global, text: &[u8]) -> Result<SoundNet> {
    let mut reader = NetReader::new(alloc);
    reader.feed(text).ok().context("the text is no netlist")?;
    let net = reader.finish().ok().context("the text is no netlist")?;
    check(alloc, net).ok().context("the netlist is unsound")
}

/// The bits that a word is.
fn bits_of(alloc: Global, word: &str) -> Result<Vec<bool>, NoMemory> {
    let mut bits = Vec::new(alloc);
    for byte in word.as_bytes() {
        bits.push(*byte == b'1')?;
    }
    Ok(bits)
}

/// Opens excite with these bits, where it comes next, relax is settled and the bits fit, and answers whether it did.
fn excites(world: &mut World<'_>, net: &Netlist, bits: &[bool]) -> bool
    requires { net.now ≡ world.old.net }
    ensures { world.new.net ≡ world.old.net }
{
    if world.phase() == Phase::Excite
        || world.pending_len() != 0
        || bits.len() != net.inputs() as usize
    {
        return false;
    }
    world.begin_excite(bits);
    true
}

/// Opens relax, where it comes next and excite is settled, and answers whether it did.
fn relaxes(world: &mut World<'_>) -> bool
    ensures { world.new.net ≡ world.old.net }
{
    if world.phase() == Phase::Relax || world.pending_len() != 0 {
        return false;
    }
    world.begin_relax();
    true
}

/// Delivers the pending pulse at a place, where there is one, and answers whether it is the one that the queue showed.
fn takes(world: &mut World<'_>, place: u32) -> bool
    ensures { world.new.net ≡ world.old.net }
{
    if place >= world.pending_len() {
        return false;
    }
    let shown = world.pending_at(place);
    world.deliver_at(place) == shown
}

/// Makes the call of a word, with the word behind it, and answers whether it could be made.
fn calls(
    alloc: Global,
    world: &mut World<'_>,
    net: &Netlist,
    word: &str,
    operand: &str,
) -> Result<bool>
    requires { net.now ≡ world.old.net }
    ensures { world.new.net ≡ world.old.net }
{
    match word {
        "excite" => {
            let bits = bits_of(alloc, operand)?;
            Ok(excites(world, net, &bits))
        }
        "relax" => Ok(relaxes(world)),
        "deliver" => Ok(world.deliver(WireId::new(operand.parse::<u32>()?))),
        "place" => Ok(takes(world, operand.parse::<u32>()?)),
        _ => bail!("unknown call"),
    }
}

/// Writes the wires that are pending.
fn write_pending(world: &World<'_>, out: &mut MemorySink) -> Result<(), Failed> {
    write_all(out, b" pending")?;
    for place in 0..world.pending_len() {
        write_numbered(b" ", world.pending_at(place).number(), b"", out)?;
    }
    Ok(())
}

/// Writes the output rails that pulsed.
fn write_pulsed(world: &World<'_>, net: &Netlist, out: &mut MemorySink) -> Result<(), Failed>
    requires { net.now ≡ world.now.net }
{
    write_all(out, b" pulsed")?;
    for number in 0..net.output_rails().len() {
        if world.pulsed(RailId::new(number)) {
            write_numbered(b" ", number, b"", out)?;
        }
    }
    Ok(())
}

/// Writes the cells that store a 1.
fn write_stored(world: &World<'_>, net: &Netlist, out: &mut MemorySink) -> Result<(), Failed>
    requires { net.now ≡ world.now.net }
{
    write_all(out, b" stored")?;
    for number in 0..net.cells().len() {
        if world.stored(CellId::new(number)) {
            write_numbered(b" ", number, b"", out)?;
        }
    }
    Ok(())
}

/// Writes a call with its answer, and what the world shows.
fn write_call(
    world: &World<'_>,
    net: &Netlist,
    word: &str,
    is_made: bool,
    out: &mut MemorySink,
) -> Result<(), Failed>
    requires { net.now ≡ world.now.net }
{
    write_all(out, word.as_bytes())?;
    write_all(out, if is_made { b" yes:" } else { b" no:" })?;
    write_all(
        out,
        if world.phase() == Phase::Excite {
            b" excite"
        } else {
            b" relax"
        },
    )?;
    write_pending(world, out)?;
    write_pulsed(world, net, out)?;
    write_stored(world, net, out)?;
    write_all(out, if world.at_rest() { b" rest\n" } else { b"\n" })
}

/// Makes the calls of a text one after the other, and tells each.
fn calls_told(
    alloc: Global,
    world: &mut World<'_>,
    net: &Netlist,
    text: &str,
    out: &mut MemorySink,
) -> Result<()>
    requires { net.now ≡ world.old.net }
{
    for call in text.split(", ") {
        let (word, operand) = parted(call);
        let is_made = calls(alloc, world, net, word, operand)?;
        write_call(world, net, call, is_made, out)?;
    }
    Ok(())
}

/// Makes the calls of a text in a new world of a netlist, and tells each.
pub(crate) fn world_told(
    alloc: Global,
    net: &SoundNet,
    text: &str,
    out: &mut MemorySink,
) -> Result<()> {
    let mut world = World::new(alloc, net)?;
    calls_told(alloc, &mut world, net.net(), text, out)
}
