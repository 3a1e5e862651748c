//! Why a netlist text is refused.

use pulse_ids::{NoMemory, Quantity};

/// Why a netlist text is refused.
#[derive(Clone, Copy, Debug, PartialEq, Eq)]
pub enum NetRefusal {
    /// The whole line of this number, from 1, is the first that has no form of the text or doesn't stand in its place.
    BadLine(u32),
    /// The text ends before a whole `end` line.
    Truncated,
    /// There is more than the greatest number of this quantity.
    Limit(Quantity),
    /// Memory was refused.
    NoMemory,
}

impl From<NoMemory> for NetRefusal {
    ghost use Rattle.std.specs.Prelude.{◌≡◌};
    ghost use Rattle.netlist_reader.specs.declared.refusals.NetRefusal.TheVariants as refusals;

    ghost from_gives = { λ _ result. result ≡ refusals.NoMemory };

    fn from(_: NoMemory) -> NetRefusal {
        NetRefusal::NoMemory
    }
}
