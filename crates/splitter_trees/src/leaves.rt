//! The leaves of a tree of splitters.

ghost use Rattle.std.specs.Prelude.{◌≡◌, ◌≤◌, ◌<◌, ◌-◌, ◌^◌, ◌++◌, ◌∷◌, [], length, Some, slice_get, OnOk, IfOk};

use pulse_ids::{NoMemory, WireId};
use std::alloc::Global;
use std::marker::Model;

/// Wires from left to right, one for each reader. A value of this type is the list of their numbers.
#[derive(Debug, Drop)]
pub struct Leaves {
    wires: Vec<WireId>,
}

impl Model for Leaves {
    ghost use Rattle.std.specs.Prelude.{◌<◌, ◌^◌, ℕ, List, map, length};
    ghost use Rattle.pulse_ids.specs.Ids.{WireId as Wires};

    ghost Value = { List ℕ };

    ghost view = { λ leaves. map (λ (wire : Wires). wire.number) leaves.wires.items };

    ghost invariant = { λ leaves. length leaves.wires.items < 2 ^ 32 };
}

impl Leaves {
    /// No leaf. It takes no memory.
    pub fn new(alloc: Global) -> Leaves
        ensures { result ≡ [] }
    {
        Leaves {
            wires: Vec::new(alloc),
        }
    }

    // No leaf, with room for some.
    pub(crate) fn with_room(alloc: Global, room: u32) -> Result<Leaves, NoMemory>
        ensures { IfOk result (λ leaves. leaves ≡ []) }
    {
        Ok(Leaves {
            wires: Vec::with_capacity(alloc, room as usize)?,
        })
    }

    /// How many there are, always below 2^32.
    pub fn len(&self) -> u32
        ensures { result ≡ length self.now }
    {
        self.wires.len() as u32
    }

    /// The leaf of this number, from 0 at the left. The number is below that of the leaves.
    pub fn leaf(&self, k: u32) -> WireId
        requires { k < length self.now }
        ensures { slice_get self.now k ≡ Some result.number }
    {
        self.wires[k as usize]
    }

    // Adds a leaf at the right.
    pub(crate) fn push(&mut self, wire: WireId) -> Result<(), NoMemory>
        requires { length self.old < 2 ^ 32 - 1 }
        ensures { OnOk result (self.new ≡ self.old ++ wire.number ∷ []) }
    {
        self.wires.push(wire)?;
        Ok(())
    }

    /// Takes off the leftmost leaf, where there is one. It takes time in the number of leaves.
    pub fn take_first(&mut self) -> WireId
        requires { 1 ≤ length self.old }
        ensures { self.old ≡ result.number ∷ self.new }
    {
        self.wires.remove(0)
    }
}
