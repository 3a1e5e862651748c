//! Which output rails pulsed in the phase.

ghost use Rattle.std.specs.Prelude.{◌≡◌, ◌<◌, ◌+◌, Some, length, replicate, false, IfOk, slice_get, slice_index, slice_set, if◌then◌else◌};

use pulse_ids::{Bits, Ident, NoMemory, RailId};
use std::alloc::Global;
use std::marker::Model;

/// How often each output rail pulsed in the phase, 0 or 1, in one bit a rail. After `new` no call takes memory.
#[derive(Debug, Drop)]
pub(crate) struct RailCounts {
    pulsed: Bits<RailId>,
}

impl Model for RailCounts {
    ghost use Rattle.std.specs.Prelude.{ℕ, List};
    ghost use Rattle.pulse_world.specs.PackedStates.{counts_by};

    ghost Value = { List ℕ };

    ghost view = { λ counts. counts_by counts.pulsed };
}

impl RailCounts {
    /// As many rails as given, none of which pulsed.
    pub(crate) fn new(alloc: Global, rails: u32) -> Result<RailCounts, NoMemory>
        ensures { IfOk result (λ counts. counts ≡ replicate rails 0) }
    {
        let pulsed = Bits::filled(alloc, rails)?;
        Ok(RailCounts { pulsed })
    }

    /// Whether the rail with this number, which is below the length, pulsed.
    pub(crate) fn has_pulsed(&self, id: RailId) -> bool
        requires { id.number < length self.now }
        ensures { slice_get self.now id.number ≡ Some (if result then 1 else 0) }
    {
        self.pulsed.get(id)
    }

    /// Counts a pulse on the rail with this number, which had none yet.
    #[inline(always)]
    pub(crate) fn count(&mut self, id: RailId)
        requires { slice_get self.old id.number ≡ Some 0 }
        ensures { self.new ≡ slice_set self.old id.number (slice_index self.old id.number + 1) }
    {
        self.pulsed.set(id, true);
    }

    /// Sets all counts to 0.
    #[inline(always)]
    pub(crate) fn clear(&mut self)
        ensures { self.new ≡ replicate (length self.old) 0 }
    {
        clear_bits(&mut self.pulsed);
    }
}

// Sets all bits to 0.
#[inline(always)]
fn clear_bits(bits: &mut Bits<RailId>)
    ensures { bits.new ≡ replicate (length bits.old) false }
{
    for number in 0..bits.len() {
        bits.set(RailId::new(number), false);
    }
}
