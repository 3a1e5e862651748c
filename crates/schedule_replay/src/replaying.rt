//! Deliveries by a script.

ghost use Rattle.std.specs.Prelude.{◌<◌, ◌^◌, length, map};
ghost use Rattle.schedule_replay.specs.Logs.{wire_number};
ghost use Rattle.schedule_replay.specs.Replaying.{Replays};
ghost use Rattle.schedule_replay.specs.Settling.{Keeps};

use crate::laws::deliveries_in_turn;
use pulse_ids::WireId;
use pulse_world::World;

/// Why a script doesn't fit.
#[derive(Clone, Copy, Debug, PartialEq, Eq)]
pub enum ScriptFault {
    /// On the wire of the item `at`, from 0, nothing is pending at its turn.
    NotPending {
        /// The place of the item in the script.
        at: u32,
        /// Its wire, which may be any.
        wire: WireId,
    },
    /// All items were delivered, and pulses are pending.
    Short {
        /// How many of them.
        left: u32,
    },
}

/// Makes the deliveries of a script, which has fewer than 2^32 items and leaves nothing pending. Each takes constant
/// time, and nothing takes memory. The world is then one of the same netlist in the same phase.
///
/// Errors: `NotPending` at the first item with nothing pending on its wire at its turn; the deliveries before it stand.
/// `Short` where all were made and pulses are pending.
pub fn replay(world: &mut World<'_>, script: &[WireId]) -> Result<(), ScriptFault>
    requires { length script.now < 2 ^ 32 }
    ensures replays { Replays world.old (map wire_number script.now) world.new result }
    ensures keeps { Keeps world.old world.new }
{
    deliveries_in_turn();
    let _ = world.phase();
    for at in 0..script.len() {
        let wire = script[at];
        if !world.deliver(wire) {
            return Err(ScriptFault::NotPending {
                at: at as u32,
                wire,
            });
        }
    }
    match world.pending_len() {
        0 => Ok(()),
        left => Err(ScriptFault::Short { left }),
    }
}
