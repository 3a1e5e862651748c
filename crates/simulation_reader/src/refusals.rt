//! Why the input of a simulation is refused.

use netlist_reader::NetRefusal;
use schedule_replay::VectorRefusal;

/// Why the input of a simulation is refused.
#[derive(Clone, Copy, Debug, PartialEq, Eq)]
pub enum InputRefusal {
    /// Its netlist's text is.
    Net(NetRefusal),
    /// What stands after it is no text of vectors for this netlist.
    Vectors(VectorRefusal),
}
