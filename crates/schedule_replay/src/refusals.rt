//! Why a text of vectors is refused.

use pulse_ids::{NoMemory, Quantity};

/// Why a text of vectors is refused.
#[derive(Clone, Copy, Debug, PartialEq, Eq)]
pub enum VectorRefusal {
    /// The line of this number doesn't fit, or a byte stands after `stop`, where the next line would begin. Lines are
    /// counted from 1, and those before the text are counted too.
    BadLine(u32),
    /// The text ends before a whole `stop` line.
    Truncated,
    /// There is too much of something.
    Limit(Quantity),
    /// Memory was refused.
    NoMemory,
}

impl From<NoMemory> for VectorRefusal {
    ghost use Rattle.std.specs.Prelude.{◌≡◌};
    ghost use Rattle.schedule_replay.specs.declared.refusals.VectorRefusal.TheVariants as refusals;

    ghost from_gives = { λ _ result. result ≡ refusals.NoMemory };

    fn from(_: NoMemory) -> VectorRefusal {
        VectorRefusal::NoMemory
    }
}
