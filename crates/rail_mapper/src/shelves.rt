//! The leaves of all rails, in one table.

ghost use Rattle.std.specs.Prelude.{◌≡◌, ◌≤◌, ◌<◌, ◌++◌, [], ℕ, map, length, replicate, slice_index_or, slice_set, IfOk, OnOk};
ghost use Rattle.rail_mapper.specs.Shelves.{bare_shelf, shelf_after, numbers_of, TakesFirst};

use pulse_ids::{NoMemory, WireId};
use splitter_trees::Leaves;
use std::alloc::Global;
use std::marker::Model;

/// Where the leaves of a rail stand in the table: from the first that is not taken up to an end.
#[derive(Clone, Copy, Debug)]
pub(crate) struct Shelf {
    pub(crate) first: usize,
    pub(crate) end: usize,
}

/// The leaves of each rail that are not taken yet, each rail's in a row of one table. A value of this type is the
/// list of the rails' lists of leaves.
#[derive(Drop)]
pub(crate) struct Shelves {
    wires: Vec<WireId>,
    shelves: Vec<Shelf>,
}

impl Model for Shelves {
    ghost use Rattle.std.specs.Prelude.{ℕ, List, map, length};
    ghost use Rattle.rail_mapper.specs.Shelves.{numbers_of, leaves_on, AreInTable};

    ghost Value = { List (List ℕ) };

    ghost view = { λ table. map (leaves_on (numbers_of table.wires.items)) table.shelves.items };

    ghost invariant = { λ table. AreInTable (length table.wires.items) table.shelves.items };
}

impl Shelves {
    /// So many rails, of which none has a leaf.
    pub(crate) fn empty(alloc: Global, rails: u32) -> Result<Shelves, NoMemory>
        ensures { IfOk result (λ shelves. shelves ≡ replicate rails []) }
    {
        Ok(Shelves {
            wires: Vec::new(alloc),
            shelves: bare_shelves(alloc, rails)?,
        })
    }

    /// Takes the first leaf of a rail, which has one.
    pub(crate) fn take(&mut self, rail: u32) -> WireId
        requires { 1 ≤ length (slice_index_or self.old rail []) }
        ensures { TakesFirst rail result.number self.old self.new }
    {
        let shelf = self.shelves[rail as usize];
        let wire = self.wires[shelf.first];
        self.shelves[rail as usize] = without_first(shelf);
        wire
    }

    /// Gives a rail these leaves and no other. It takes time in the number of leaves.
    pub(crate) fn put(&mut self, rail: u32, leaves: &Leaves) -> Result<(), NoMemory>
        requires { rail < length self.old }
        ensures { OnOk result (self.new ≡ slice_set self.old rail leaves.now) }
    {
        let first = self.wires.len();
        append(&mut self.wires, leaves)?;
        let end = self.wires.len();
        self.shelves[rail as usize] = Shelf { first, end };
        Ok(())
    }
}

// A shelf with a leaf, without the first one.
fn without_first(shelf: Shelf) -> Shelf
    requires { shelf.first < shelf.end }
    ensures { result ≡ shelf_after shelf }
{
    Shelf {
        first: shelf.first + 1,
        end: shelf.end,
    }
}

// So many shelves with no leaf.
#[tactic(auto, using(crate::proofs::ShelfLemmas::replicate_last))]
fn bare_shelves(alloc: Global, count: u32) -> Result<Vec<Shelf>, NoMemory>
    ensures { IfOk result (λ shelves. shelves.items ≡ replicate count bare_shelf) }
{
    let mut shelves = Vec::with_capacity(alloc, count as usize)?;
    for _made in 0..count {
        shelves.push(Shelf { first: 0, end: 0 })?;
    }
    Ok(shelves)
}

// Adds the leaves at the end of the table.
fn append(wires: &mut Vec<WireId>, leaves: &Leaves) -> Result<(), NoMemory>
    ensures added { OnOk result (numbers_of wires.new.items ≡ numbers_of wires.old.items ++ leaves.now) }
    ensures more { length wires.old.items ≤ length wires.new.items }
{
    for k in 0..leaves.len() {
        wires.push(leaves.leaf(k))?;
    }
    Ok(())
}
