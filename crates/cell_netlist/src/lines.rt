//! The lines of a netlist, and the places where a wire is driven or read.

use crate::kinds::Role;
use pulse_ids::{CellId, RailId, Sign, WireId};

/// A rail of a port: an input rail drives its wire, an output rail reads it.
#[derive(Clone, Copy, Debug, PartialEq, Eq, Hash)]
pub struct Rail {
    /// The port, numbered from 0 on its side.
    pub port: u32,
    /// Which rail of the port.
    pub sign: Sign,
    /// The wire that the rail drives or reads.
    pub wire: WireId,
}

/// A state line: it names the cell whose bit is a latch of the source.
#[derive(Clone, Copy, Debug, PartialEq, Eq, Hash)]
pub struct StateLine {
    /// The latch, numbered from 0 in the source.
    pub latch: u32,
    /// The cell, which is a back in a sound netlist.
    pub cell: CellId,
}

/// A cell with the wires on its ports.
#[derive(Clone, Copy, Debug, PartialEq, Eq, Hash)]
pub enum Cell {
    /// Last arrival: emits on `out` when both `a` and `b` have got a pulse.
    La {
        a: WireId,
        b: WireId,
        out: WireId,
    },
    /// First arrival: emits on `out` at the first pulse on `a` or `b`.
    Fa {
        a: WireId,
        b: WireId,
        out: WireId,
    },
    /// Splitter: emits on `left` and `right` at a pulse on `from`.
    Split {
        from: WireId,
        left: WireId,
        right: WireId,
    },
    /// A bit that a pulse on `feed` sets. The phase clock emits it on `q` where it is 1 and on `n` where it
    /// is 0, and clears it. An emission on an unused output is lost.
    Droc {
        role: Role,
        preload: bool,
        feed: WireId,
        q: Option<WireId>,
        n: Option<WireId>,
    },
}

/// A place that drives a wire.
#[derive(Clone, Copy, Debug, PartialEq, Eq, Hash)]
pub enum Driver {
    /// An input rail.
    Input(RailId),
    /// The output of an LA or FA.
    Out(CellId),
    /// The left output of a splitter.
    Left(CellId),
    /// The right output of a splitter.
    Right(CellId),
    /// The output `q` of a DROC.
    Q(CellId),
    /// The output `n` of a DROC.
    N(CellId),
}

/// A place that reads a wire.
#[derive(Clone, Copy, Debug, PartialEq, Eq, Hash)]
pub enum Reader {
    /// Port a of an LA or FA.
    A(CellId),
    /// Port b of an LA or FA.
    B(CellId),
    /// The input of a splitter.
    From(CellId),
    /// The feed of a DROC.
    Feed(CellId),
    /// An output rail.
    Output(RailId),
}
