//! The quantities that are limited, and the greatest number accepted of each.

ghost use Rattle.std.specs.Prelude.{◌≡◌};
ghost use Rattle.pulse_ids.specs.Quantities.{greatest_of};

/// A quantity that has a limit.
#[derive(Clone, Copy, Debug, PartialEq, Eq)]
pub enum Quantity {
    /// Bytes of a source.
    SourceBytes,
    /// Bytes of a netlist text.
    NetBytes,
    /// Bytes that follow the netlist in the input of a simulation.
    TailBytes,
    /// Input ports.
    Inputs,
    /// Output ports.
    Outputs,
    /// Latches.
    Latches,
    /// Nets, or the greatest variable that an AIGER header announces.
    Nets,
    /// Cubes and the literals in them, over all equations of a source.
    Size,
    /// Bytes of one name.
    NameBytes,
    /// Wires of a netlist that is read.
    Wires,
    /// Input vectors of a simulation.
    Vectors,
}

impl Quantity {
    /// The greatest number of it that is accepted.
    pub fn greatest(self) -> u64
        ensures { result ≡ greatest_of self }
    {
        match self {
            Quantity::SourceBytes => 67_108_864,
            Quantity::NetBytes | Quantity::TailBytes => 134_217_728,
            Quantity::Inputs | Quantity::Outputs | Quantity::Latches => 16_384,
            Quantity::Nets => 524_288,
            Quantity::Size => 262_144,
            Quantity::NameBytes => 1_023,
            Quantity::Wires => 4_194_304,
            Quantity::Vectors => 16_384,
        }
    }
}
