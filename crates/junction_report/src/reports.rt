//! What a report says.

ghost use Rattle.std.specs.Prelude.{◌≡◌, ◌<◌, ◌^◌, ◌↔◌, [], Some, IsTrue, length, slice_get};

use pulse_ids::CellId;
use std::marker::Model;

/// What a netlist costs and how deep it is.
#[derive(Debug, Drop)]
pub struct Report {
    /// The number of input rails.
    pub input_rails: u32,
    /// The number of output rails.
    pub output_rails: u32,
    /// The number of LA cells.
    pub la: u32,
    /// The number of FA cells.
    pub fa: u32,
    /// The number of splitters.
    pub split: u32,
    /// The number of DROC cells with preload 0, whatever their role.
    pub droc0: u32,
    /// The number of DROC cells with preload 1, whatever their role.
    pub droc1: u32,
    /// The junctions of all cells: 4 for an LA or FA, 3 for a splitter, 13 for a DROC with preload 0 and 22 for one
    /// with preload 1.
    pub junctions: u32,
    /// The greatest number of LA and FA cells on a walk.
    pub logic: u32,
    /// The greatest number of cells on a walk.
    pub cells: u32,
    /// A deepest walk.
    pub path: Path,
}

/// A path as its cells in order, from the first that is passed to the last.
#[derive(Debug, Drop)]
pub struct Path {
    cells: Vec<CellId>,
}

impl Model for Path {
    ghost use Rattle.std.specs.Prelude.{List, length, ◌<◌, ◌^◌};
    ghost use Rattle.pulse_ids.specs.Ids.{CellId};

    ghost Value = { List CellId };

    ghost view = { λ path. path.cells.items };

    ghost invariant = { λ path. length path.cells.items < 2 ^ 32 };
}

impl Path {
    /// A path of these cells, fewer than 2^32.
    pub(crate) fn new(cells: Vec<CellId>) -> Path
        requires { length cells.items < 2 ^ 32 }
        ensures { result ≡ cells.items }
    {
        Path { cells }
    }

    /// How many cells the path has.
    pub fn len(&self) -> u32
        ensures { result ≡ length self.now }
    {
        self.cells.len() as u32
    }

    /// Whether the path has no cell.
    pub fn is_empty(&self) -> bool
        ensures { IsTrue result ↔ (self.now ≡ []) }
    {
        self.cells.is_empty()
    }

    /// The cell at a place, which is below the length.
    pub fn cell(&self, place: u32) -> CellId
        requires { place < length self.now }
        ensures { slice_get self.now place ≡ Some result }
    {
        self.cells[place as usize]
    }

    /// All cells in order.
    pub fn cells(&self) -> &[CellId]
        ensures { result.now ≡ self.now }
    {
        self.cells.as_slice()
    }
}
