//! Random machines beside their netlists.

ghost use Rattle.std.specs.Prelude.{◌≡◌, ◌≤◌};

use crate::building::{Draw, grounded, netlist_of, random_machine};
use crate::runs::{cycle_agrees, keeps};
use anyhow::Result;
use cell_netlist::{Ask, Netlist, SoundNet};
use pulse_ids::NoMemory;
use pulse_world::World;
use source_machine::Machine;
use std::alloc::Global;

/// The first state of a machine.
fn first_state(alloc: Global, machine: &Machine) -> Result<Vec<bool>, NoMemory> {
    let mut state = Vec::new(alloc);
    for latch in &machine.raw().latches {
        state.push(latch.init)?;
    }
    Ok(state)
}

/// Whether a netlist in motion agrees with the machine in three cycles from a state.
fn three_agree(
    alloc: Global,
    world: &mut World<'_>,
    net: &Netlist,
    draw: &mut Draw,
    machine: &Machine,
    state: &mut [bool],
) -> Result<bool, NoMemory>
    requires { net.now ≡ world.old.net }
    ensures { world.new.net ≡ world.old.net }
{
    for _cycle in 0..3 {
        if !cycle_agrees(alloc, world, net, draw, machine, state)? {
            return Ok(false);
        }
    }
    Ok(true)
}

/// Whether a netlist in motion agrees with the machine in its first three cycles.
fn world_agrees(
    alloc: Global,
    world: &mut World<'_>,
    net: &Netlist,
    draw: &mut Draw,
    machine: &Machine,
) -> Result<bool, NoMemory>
    requires { net.now ≡ world.old.net }
{
    let mut state = first_state(alloc, machine)?;
    if !keeps(world, net, &state) {
        return Ok(false);
    }
    three_agree(alloc, world, net, draw, machine, &mut state)
}

/// Whether a netlist agrees with the machine in its first three cycles.
fn netlist_agrees(
    alloc: Global,
    sound: &SoundNet,
    draw: &mut Draw,
    machine: &Machine,
) -> Result<bool, NoMemory> {
    let mut world = World::new(alloc, sound)?;
    world_agrees(alloc, &mut world, sound.net(), draw, machine)
}

/// Whether the netlist of a machine is sound, and agrees with it in three cycles.
fn agrees(alloc: Global, machine: &Machine, draw: &mut Draw, ask: Ask) -> Result<bool> {
    let sound = netlist_of(alloc, machine, ask)?;
    Ok(netlist_agrees(alloc, &sound, draw, machine)?)
}

/// Whether a machine agrees with its netlists of all asks.
fn netlists_agree(alloc: Global, machine: &Machine, draw: &mut Draw) -> Result<bool> {
    for ask in [Ask::Pos, Ask::Neg, Ask::Both] {
        if !agrees(alloc, machine, draw, ask)? {
            return Ok(false);
        }
    }
    Ok(true)
}

/// Whether the machine that a seed draws, of at most 40 conjunctions, agrees with its netlists of all asks.
pub(crate) fn all_agree(alloc: Global, seed: u32) -> Result<bool> {
    let mut draw = Draw { state: seed };
    let conjunctions = draw.below(41);
    let machine = grounded(alloc, random_machine(alloc, &mut draw, conjunctions)?)?;
    netlists_agree(alloc, &machine, &mut draw)
}
