//! The law on the cells of upsets.

ghost use Rattle.cell_netlist.specs.Upsets.{UpsetsAreOfCells, ReadingCellsAreUpset};

/// A delivery is an upset just where some cell's table has no line for the pulse. Where each wire has one driver and
/// one reader, that cell is the wire's reader, so there is one only.
pub fn upsets_of_cells()
    ensures cells { UpsetsAreOfCells }
    ensures reader { ReadingCellsAreUpset }
{}
