//! Characters that tell which output rails pulsed.

ghost use Rattle.std.specs.Prelude.{◌≡◌, length, map, if◌then◌else◌};
ghost use Rattle.std.specs.List.{sum};
ghost use Rattle.pulse_traces.specs.SimulationTexts.{digit_of};

use pulse_ids::{Ident, RailId};
use pulse_world::World;

/// The character of an output rail, `1` exactly where it pulsed.
fn digit(pulsed: bool) -> u8
    ensures { result ≡ digit_of (if pulsed then 1 else 0) }
{
    if pulsed { b'1' } else { b'0' }
}

/// Notes which output rails pulsed in this phase, in the characters that stand there for them, and answers how many did.
pub(crate) fn note_pulses(world: &World<'_>, rails: u32, digits: &mut Vec<u8>) -> u32
    requires rails { rails ≡ length world.now.net.output_rails }
    requires counts { length world.now.counted ≡ rails }
    requires digits { length digits.old.items ≡ rails }
    ensures digits { digits.new.items ≡ map digit_of world.now.counted }
    ensures count { result ≡ sum world.now.counted }
{
    let mut count = 0u32;
    for number in 0..rails {
        let pulsed = world.pulsed(RailId::new(number));
        digits[number as usize] = digit(pulsed);
        count += pulsed as u32;
    }
    count
}
