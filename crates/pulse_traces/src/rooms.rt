//! Room for what a phase delivers.

ghost use Rattle.std.specs.Prelude.{◌≡◌, ◌+◌, ◌<◌, ◌≤◌, ◌^◌, [], IfOk, OnOk, length, map};
ghost use Rattle.schedule_replay.specs.Settling.{DeliversInTurn, Keeps};
ghost use Rattle.schedule_replay.specs.Replaying.{Replays};
ghost use Rattle.schedule_replay.specs.Logs.{wire_number};
ghost use Rattle.pulse_traces.specs.CycleCounts.{pulses_in};
ghost use Rattle.pulse_traces.specs.SimulationTexts.{digits_in};
ghost use Rattle.pulse_traces.specs.Rooms.{HasRoom, IsFresh};

use crate::digits::note_pulses;
use cell_netlist::SoundNet;
use pulse_ids::{NoMemory, WireId};
use pulse_world::World;
use schedule_replay::{Choose, Chooser, Log, ScriptFault, replay, settle};
use std::alloc::Global;

/// The wires that a phase delivered, a character for each output rail, and how many of these pulsed.
#[derive(Debug, Drop)]
pub(crate) struct PhaseRoom {
    pub(crate) log: Log,
    pub(crate) digits: Vec<u8>,
    pub(crate) rails: u32,
    pub(crate) pulses: u32,
}

fn zeros(alloc: Global, count: u32) -> Result<Vec<u8>, NoMemory>
    ensures { IfOk result (λ digits. length digits.items ≡ count) }
{
    Ok(vec![in alloc; 48u8; count as usize]?)
}

impl PhaseRoom {
    /// Room for the phases of a netlist. It takes all the memory that it ever has.
    pub(crate) fn new(alloc: Global, net: &SoundNet) -> Result<PhaseRoom, NoMemory>
        ensures { IfOk result (λ room. HasRoom net.now room) }
    {
        let rails = net.net().output_rails().len();
        Ok(PhaseRoom {
            log: Log::new(alloc, net)?,
            digits: zeros(alloc, rails)?,
            rails,
            pulses: 0,
        })
    }
}

/// Delivers by the function until nothing is pending, in a phase that was just opened. The wires, the characters and
/// the number of pulses stand in the room afterwards. It answers the next step.
pub(crate) fn settle_phase<F: Fn(u64, u64) -> u64 + Choose>(
    world: &mut World<'_>,
    chooser: &Chooser<F>,
    step: u64,
    room: &mut PhaseRoom,
) -> u64
    requires step { step < 2 ^ 62 }
    requires fresh { IsFresh world.old }
    requires room { HasRoom world.old.net room.old }
    ensures delivers { DeliversInTurn (F.Choose.names chooser.now) step world.old room.new.log.wires world.new }
    ensures settled { world.new.queue ≡ [] }
    ensures next { result ≡ step + length room.new.log.wires }
    ensures few { result ≤ step + 2 ^ 22 }
    ensures digits { room.new.digits.items ≡ digits_in world.old.net.output_rails room.new.log.wires }
    ensures pulses { room.new.pulses ≡ pulses_in world.old.net.output_rails room.new.log.wires }
    ensures room { HasRoom world.old.net room.new }
    ensures keeps { Keeps world.old world.new }
{
    let made = settle(world, chooser, step, &mut room.log);
    room.pulses = note_pulses(world, room.rails, &mut room.digits);
    step + made as u64
}

/// Delivers a script in a phase that was just opened, after which the characters stand in the room, or answers its
/// fault.
pub(crate) fn replay_phase(
    world: &mut World<'_>,
    script: &[WireId],
    room: &mut PhaseRoom,
) -> Result<(), ScriptFault>
    requires short { length script.now < 2 ^ 32 }
    requires fresh { IsFresh world.old }
    requires room { HasRoom world.old.net room.old }
    ensures replays { Replays world.old (map wire_number script.now) world.new result }
    ensures digits { OnOk result (room.new.digits.items ≡ digits_in world.old.net.output_rails (map wire_number script.now)) }
    ensures room { HasRoom world.old.net room.new }
    ensures keeps { Keeps world.old world.new }
{
    replay(world, script)?;
    room.pulses = note_pulses(world, room.rails, &mut room.digits);
    Ok(())
}
