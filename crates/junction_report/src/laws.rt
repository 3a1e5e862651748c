//! Laws on walks, depths, paths and reports. Each stands on a function that does nothing.

ghost use Rattle.junction_report.specs.Reports.{CellsHaveDepths, DepthsAreUnique, PathsAreWalks, PathsAreUnique, CountsAddUp, ReportsAreUnique};

/// Each LA, FA and splitter of a sound netlist has a depth, and one only.
pub fn depths_of_cells()
    ensures some { CellsHaveDepths }
    ensures one { DepthsAreUnique }
{}

/// The path of a sound netlist is a walk, none is longer, and there is one path only.
pub fn paths_are_walks()
    ensures walk { PathsAreWalks }
    ensures one { PathsAreUnique }
{}

/// A sound netlist has one report only.
pub fn one_report()
    ensures { ReportsAreUnique }
{}

/// The counts of a report add up to the number of cells.
pub fn counts_add_up()
    ensures { CountsAddUp }
{}
