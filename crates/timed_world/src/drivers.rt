//! The cell that drives a wire, of any kind.

ghost use Rattle.std.specs.Prelude.{◌≡◌, ◌<◌, Some, option_map};
ghost use Rattle.cell_netlist.specs.Netlists.{number_of_wires};
ghost use Rattle.timed_world.specs.Bounding.{IsDriven, cell_of_place};

use cell_netlist::{Driver, SoundNet};
use pulse_ids::{CellId, WireId};

/// The cell that drives a wire, which is below the number of wires. None where an input rail does.
pub(crate) fn driver_cell(net: &SoundNet, wire: WireId) -> Option<CellId>
    requires { wire.number < number_of_wires net.now }
    ensures { IsDriven net.now (Some wire.number) (option_map (λ id. id.number) result) }
{
    cell_of(net.driver(wire))
}

/// The cell of a driving place. None for an input rail.
fn cell_of(place: Driver) -> Option<CellId>
    ensures { option_map (λ id. id.number) result ≡ cell_of_place place }
{
    match place {
        Driver::Out(id) => Some(id),
        Driver::Left(id) | Driver::Right(id) => Some(id),
        Driver::Q(id) | Driver::N(id) => Some(id),
        Driver::Input(_) => None,
    }
}
