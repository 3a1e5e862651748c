//! Why a netlist is refused as unsound.

use pulse_ids::{CellId, RailId, WireId};

/// A line of an input rail or of an output rail.
#[derive(Clone, Copy, Debug, PartialEq, Eq)]
pub enum RailLine {
    Input(RailId),
    Output(RailId),
}

/// The first rule of soundness that a netlist breaks, at the lowest number.
#[derive(Clone, Copy, Debug, PartialEq, Eq)]
pub enum Unsound {
    /// The wire has no driver.
    WireUndriven(WireId),
    /// The wire has more than one driver.
    WireTwiceDriven(WireId),
    /// The wire has no reader.
    WireUnread(WireId),
    /// The wire has more than one reader.
    WireTwiceRead(WireId),
    /// The rail's port is not below the number of ports of its side.
    PortRange(RailLine),
    /// An earlier input rail has the same port and sign.
    RailTwice(RailId),
    /// An output of this LA, FA or splitter is not grounded.
    Loop(CellId),
    /// The DROC does not fit its role.
    LooseDroc(CellId),
    /// The back's preload is not the complement of its front's.
    WrongPreload(CellId),
    /// The state line of this number, counted from 0, names no back, or a cell that an earlier one names.
    LooseState(u32),
}
