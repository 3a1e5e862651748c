//! Cycles of a machine beside those of its netlist, with the pulses in a random order.

ghost use Rattle.std.specs.Prelude.{◌≡◌};

use crate::building::Draw;
use cell_netlist::{Netlist, Phase};
use pulse_ids::{Ident, NoMemory, RailId, Sign};
use pulse_world::World;
use source_machine::{Machine, Values, step};
use std::alloc::Global;

/// The bits of the outputs in a cycle, and the next state in the state's place. Where a width doesn't fit, there are
/// none.
fn outputs_of(
    alloc: Global,
    machine: &Machine,
    state: &mut [bool],
    inputs: &[bool],
) -> Result<Vec<bool>, NoMemory> {
    let mut bits = Vec::new(alloc);
    let raw = machine.raw();
    if state.len() != raw.latches.len() || inputs.len() != raw.inputs.len() {
        return Ok(bits);
    }
    let mut room = Values::new(alloc, machine)?;
    step(machine, state, inputs, &mut room);
    for output in &raw.outputs {
        if output.net().number() <= raw.nets {
            bits.push(room.value(*output))?;
        }
    }
    Ok(bits)
}

/// Opens a phase, where it comes next, the last one is settled and the vector fits, and answers whether it did.
pub(crate) fn opens(world: &mut World<'_>, net: &Netlist, phase: Phase, inputs: &[bool]) -> bool
    requires { net.now ≡ world.old.net }
    ensures { world.new.net ≡ world.old.net }
{
    if world.phase() == phase || world.pending_len() != 0 || inputs.len() != net.inputs() as usize {
        return false;
    }
    match phase {
        Phase::Excite => world.begin_excite(inputs),
        Phase::Relax => world.begin_relax(),
    }
    true
}

/// Delivers pending pulses, at most so many, each at a random place of the queue.
fn settle(world: &mut World<'_>, draw: &mut Draw, most: u32)
    ensures { world.new.net ≡ world.old.net }
{
    for _delivery in 0..most {
        let pending = world.pending_len();
        if pending == 0 {
            return;
        }
        let place = draw.below(pending.min(65_535) as u16);
        let _ = world.deliver_at(place as u32);
    }
}

/// Whether each output rail pulsed just where its bit is 1 in excite, and 0 in relax. All outputs have a bit.
fn shows(world: &World<'_>, net: &Netlist, phase: Phase, bits: &[bool]) -> bool
    requires { net.now ≡ world.now.net }
{
    for number in 0..net.output_rails().len() {
        let id = RailId::new(number);
        let rail = *net.output_rails().get(id);
        let pulses = world.pulsed(id) == (phase == Phase::Excite);
        let Ok(port) = usize::try_from(rail.port) else {
            return false;
        };
        if bits.get(port) != Some(&(pulses == (rail.sign == Sign::Pos))) {
            return false;
        }
    }
    true
}

/// Whether a phase opens, settles after at most one pulse a wire, and shows the bits.
fn phase_shows(
    world: &mut World<'_>,
    net: &Netlist,
    draw: &mut Draw,
    phase: Phase,
    inputs: &[bool],
    bits: &[bool],
) -> bool
    requires { net.now ≡ world.old.net }
    ensures { world.new.net ≡ world.old.net }
{
    if !opens(world, net, phase, inputs) {
        return false;
    }
    settle(world, draw, net.wires());
    world.pending_len() == 0 && shows(world, net, phase, bits)
}

/// Whether the cell that each state line names keeps its latch's bit of this state.
pub(crate) fn keeps(world: &World<'_>, net: &Netlist, state: &[bool]) -> bool
    requires { net.now ≡ world.now.net }
{
    for line in net.state_lines() {
        if line.cell.number() >= net.cells().len()
            || state.get(line.latch as usize) != Some(&world.stored(line.cell))
        {
            return false;
        }
    }
    true
}

/// Whether a cycle of the netlist on a random vector shows the outputs of the machine, ends at rest, and leaves the
/// machine's next state in the cells that the state lines name.
pub(crate) fn cycle_agrees(
    alloc: Global,
    world: &mut World<'_>,
    net: &Netlist,
    draw: &mut Draw,
    machine: &Machine,
    state: &mut [bool],
) -> Result<bool, NoMemory>
    requires { net.now ≡ world.old.net }
    ensures { world.new.net ≡ world.old.net }
{
    let inputs = [draw.bit(), draw.bit(), draw.bit()];
    let bits = outputs_of(alloc, machine, state, &inputs)?;
    Ok(
        bits.len() == net.outputs() as usize
            && phase_shows(world, net, draw, Phase::Excite, &inputs, &bits)
            && phase_shows(world, net, draw, Phase::Relax, &inputs, &bits)
            && world.at_rest()
            && keeps(world, net, state),
    )
}
