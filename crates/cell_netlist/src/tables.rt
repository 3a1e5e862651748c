//! The tables of the cells.

ghost use Rattle.std.specs.Prelude.{◌≡◌};
ghost use Rattle.cell_netlist.specs.Tables.{arrival, fed};

use crate::kinds::{Gate, Held, Port};

/// What a gate holds after a pulse on a port, and whether it emits. None exactly where the table has no
/// line: the port got its pulse already and the other one didn't.
pub fn arrive(gate: Gate, held: Held, port: Port) -> Option<(Held, bool)>
    ensures { result ≡ arrival gate held port }
{
    let first = held == Held::Rest;
    let emits = first == (gate == Gate::Fa);
    match (held, port) {
        (Held::Rest, Port::A) => Some((Held::HasA, emits)),
        (Held::Rest, Port::B) => Some((Held::HasB, emits)),
        (Held::HasA, Port::B) | (Held::HasB, Port::A) => Some((Held::Rest, emits)),
        (Held::HasA, Port::A) | (Held::HasB, Port::B) => None,
    }
}

/// The bit of a DROC after a pulse on its feed. None exactly where the bit was 1 already.
pub fn feed_bit(bit: bool) -> Option<bool>
    ensures { result ≡ fed bit }
{
    if bit { None } else { Some(true) }
}
