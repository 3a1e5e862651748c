//! The vectors and scripts of a text.

ghost use Rattle.std.specs.Prelude.{◌≡◌, ◌≤◌, ◌<◌, ◌*◌, ◌+◌, Some, [], length, slice_get, get_or};
ghost use Rattle.pulse_ids.specs.declared.quantities.Quantity.TheVariants as quantities;
ghost use Rattle.pulse_ids.specs.Quantities.{greatest_of};
ghost use Rattle.schedule_replay.specs.VectorTexts.{said_by};

use crate::refusals::VectorRefusal;
use crate::tables::Table;
use crate::vector_lines::Due;
use flat_lists::FlatLists;
use pulse_ids::WireId;
use std::marker::Model;

/// The vectors of a text, at most 16,384, and the scripts of each one's phases, where there are scripts.
#[derive(Debug, Drop)]
pub struct Vectors {
    vectors: FlatLists<bool>,
    scripts: FlatLists<WireId>,
}

impl Model for Vectors {
    ghost use Rattle.std.specs.Prelude.{◌≤◌, length};
    ghost use Rattle.pulse_ids.specs.declared.quantities.Quantity.TheVariants as quantities;
    ghost use Rattle.pulse_ids.specs.Quantities.{greatest_of};
    ghost use Rattle.schedule_replay.specs.PlainVectors.{PlainVectors};

    ghost Value = { PlainVectors };

    ghost view = { λ read. record { vectors = read.vectors.lists; scripts = read.scripts.lists } };

    ghost invariant = { λ read. length read.vectors.lists ≤ greatest_of quantities.Vectors };
}

impl Vectors {
    /// What a table of right lines says, where `stop` is the last of them.
    pub(crate) fn of_table(table: Table) -> Result<Vectors, VectorRefusal>
        requires { length table.vectors.lists ≤ greatest_of quantities.Vectors }
        ensures { result ≡ said_by table.due (record { vectors = table.vectors.lists; scripts = table.scripts.lists }) }
    {
        match table.due {
            Due::Nothing => Ok(Vectors {
                vectors: table.vectors,
                scripts: table.scripts,
            }),
            _ => Err(VectorRefusal::Truncated),
        }
    }

    /// How many vectors there are.
    pub fn len(&self) -> u32
        ensures count { result ≡ length self.now.vectors }
        ensures most { length self.now.vectors ≤ greatest_of quantities.Vectors }
    {
        self.vectors.len() as u32
    }

    /// The vector of a number below their number, one bit an input port.
    pub fn vector(&self, k: u32) -> &[bool]
        requires { k < length self.now.vectors }
        ensures { slice_get self.now.vectors k ≡ Some result.now }
    {
        self.vectors.get(k as usize)
    }

    /// The script of a vector's excite, and no wire where there are no scripts. The number is below that of the vectors.
    pub fn excite(&self, k: u32) -> &[WireId]
        requires { k < length self.now.vectors }
        ensures { result.now ≡ get_or self.now.scripts (2 * k) [] }
    {
        self.scripts.get(2 * k as usize)
    }

    /// The script of a vector's relax, likewise.
    pub fn relax(&self, k: u32) -> &[WireId]
        requires { k < length self.now.vectors }
        ensures { result.now ≡ get_or self.now.scripts (2 * k + 1) [] }
    {
        self.scripts.get(2 * k as usize + 1)
    }
}
