//! Cycles by scripts, and their text.

ghost use Rattle.std.specs.Prelude.{◌≡◌, ◌*◌, ◌+◌, ◌<◌, ◌^◌, ◌∷◌, [], ℕ, List, Bool, Some, IfErr, OnOk, get_or, length, map};
ghost use Rattle.byte_ports.specs.Writing.{WritesText};
ghost use Rattle.pulse_ids.specs.Ids.{WireId};
ghost use Rattle.pulse_ids.specs.Lists.{IsIn};
ghost use Rattle.schedule_replay.specs.Logs.{wire_number};
ghost use Rattle.schedule_replay.specs.Orders.{IsBetween, MakesCycle};
ghost use Rattle.schedule_replay.specs.Settling.{Anywhere};
ghost use Rattle.pulse_traces.specs.Rooms.{HasRooms, ShowsScript, cycle_asked, text_asked};
ghost use Rattle.pulse_traces.specs.Scripts.{Fails, WritesUpTo, scripted};

use crate::cycles::CycleRoom;
use crate::lines::{PhaseParts, write_cycle};
use crate::rooms::replay_phase;
use byte_ports::{Failed, Sink};
use cell_netlist::Phase;
use pulse_ids::WireId;
use pulse_world::{World, moments_of_worlds};
use schedule_replay::{ScriptFault, Vectors, deliveries_in_turn, scripts_end};

/// The first fault of scripts, with its cycle, from 0, and its phase.
#[derive(Clone, Copy, Debug, PartialEq, Eq)]
pub struct CycleFault {
    /// The cycle.
    pub cycle: u32,
    /// The phase.
    pub phase: Phase,
    /// What is wrong there.
    pub fault: ScriptFault,
}

/// What a cycle is asked for: its vector, and the script of each phase.
#[derive(Clone, Copy, Debug)]
pub(crate) struct AskedCycle<'a> {
    pub(crate) vector: &'a [bool],
    pub(crate) excite: &'a [WireId],
    pub(crate) relax: &'a [WireId],
}

/// Makes a cycle by its scripts, or answers the first fault with its phase. The characters stand in the room.
fn replay_cycle(
    world: &mut World<'_>,
    asked: AskedCycle<'_>,
    room: &mut CycleRoom,
) -> Result<(), (Phase, ScriptFault)>
    requires between { IsBetween world.old }
    requires width { length asked.vector.now ≡ world.old.net.inputs }
    requires short { length asked.excite.now < 2 ^ 32 }
    requires also_short { length asked.relax.now < 2 ^ 32 }
    requires room { HasRooms world.old.net room.old }
    ensures made { OnOk result (MakesCycle Anywhere 0 world.old (cycle_asked asked.entry) world.new) }
    ensures fails { IfErr result (λ fault. Fails world.old (cycle_asked asked.entry) fault.0 fault.1) }
    ensures shows { OnOk result (ShowsScript world.old.net.output_rails asked.entry room.new) }
    ensures room { HasRooms world.old.net room.new }
    ensures between { OnOk result (IsBetween world.new) }
    ensures net { world.new.net ≡ world.old.net }
{
    world.begin_excite(asked.vector);
    match replay_phase(world, asked.excite, &mut room.excite) {
        Ok(()) => {}
        Err(fault) => return Err((Phase::Excite, fault)),
    }
    world.begin_relax();
    match replay_phase(world, asked.relax, &mut room.relax) {
        Ok(()) => Ok(()),
        Err(fault) => Err((Phase::Relax, fault)),
    }
}

/// Writes the text of a cycle that was made by scripts.
fn write_asked<K: Sink>(
    out: &mut K,
    trace: bool,
    number: u32,
    asked: AskedCycle<'_>,
    room: &CycleRoom,
) -> Result<(), Failed>
    ensures { WritesText (K.taken out.old) (K.taken out.new) (K.faults out.old) (K.faults out.new) result (text_asked trace number asked.entry room.now) }
{
    let excite = PhaseParts {
        wires: asked.excite,
        digits: room.excite.digits.as_slice(),
    };
    let relax = PhaseParts {
        wires: asked.relax,
        digits: room.relax.digits.as_slice(),
    };
    write_cycle(out, trace, number, excite, relax)
}

/// Makes a cycle by its scripts for each vector and writes its text, up to the first fault, which it answers.
pub(crate) fn write_scripted<K: Sink>(
    world: &mut World<'_>,
    vectors: &Vectors,
    trace: bool,
    room: &mut CycleRoom,
    out: &mut K,
) -> Result<Option<CycleFault>, Failed>
    requires between { IsBetween world.old }
    requires width { (vector : List Bool) → IsIn vector vectors.now.vectors → length vector ≡ world.old.net.inputs }
    requires short { (script : List WireId) → IsIn script vectors.now.scripts → length script < 2 ^ 32 }
    requires room { HasRooms world.old.net room.old }
    ensures { WritesUpTo trace world.old (scripted vectors.now) (K.taken out.old) (K.taken out.new) (K.faults out.old) (K.faults out.new) result }
{
    // The laws that the clause rests on; these calls do nothing.
    scripts_end();
    deliveries_in_turn();
    moments_of_worlds();
    for number in 0..vectors.len() {
        let asked = AskedCycle {
            vector: vectors.vector(number),
            excite: vectors.excite(number),
            relax: vectors.relax(number),
        };
        match replay_cycle(world, asked, room) {
            Ok(()) => write_asked(out, trace, number, asked, room)?,
            Err((phase, fault)) => {
                return Ok(Some(CycleFault {
                    cycle: number,
                    phase,
                    fault,
                }));
            }
        }
    }
    Ok(None)
}
