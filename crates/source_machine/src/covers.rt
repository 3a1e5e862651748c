//! A cube: one row of a sum of products.

ghost use Rattle.std.specs.Prelude.{◌≡◌, ◌↔◌, ◌<◌, ◌≤◌, ◌-◌, ◌^◌, ◌++◌, ◌∷◌, [], List, Some, IsTrue, IsOk, OnOk, OnErr, length, slice_get};
ghost use Rattle.pulse_ids.specs.Ids.{Lit};

use pulse_ids::{Lit, NoMemory};
use smallvec::SmallVec;
use std::alloc::Global;
use std::marker::Model;

/// A cube, as a list of literals: one row of a BLIF cover, or the two operands of an AIGER conjunction.
/// Up to four literals are kept in the cover itself.
#[derive(Debug, Drop)]
pub struct Cover {
    literals: SmallVec<Lit, 4>,
}

impl Model for Cover {
    ghost Value = { List Lit };

    ghost view = { λ cover. cover.literals.items };

    ghost invariant = { λ cover. (length cover.literals.items < 2 ^ 32) × (4 ≤ cover.literals.capacity) };
}

impl Cover {
    /// A cube without literals. It takes no memory.
    pub fn new(alloc: Global) -> Cover
        ensures { result ≡ [] }
    {
        Cover {
            literals: SmallVec::new(alloc),
        }
    }

    /// How many literals the cube has, always below 2^32.
    pub fn len(&self) -> u32
        ensures { result ≡ length self.now }
    {
        self.literals.len() as u32
    }

    /// Whether the cube has no literal.
    pub fn is_empty(&self) -> bool
        ensures { IsTrue result ↔ (self.now ≡ []) }
    {
        self.literals.is_empty()
    }

    /// The literal at the place `k`, which is below the length.
    pub fn lit(&self, k: u32) -> Lit
        requires { k < length self.now }
        ensures { slice_get self.now k ≡ Some result }
    {
        self.literals.as_slice()[k as usize]
    }

    /// All literals, in order.
    pub fn literals(&self) -> &[Lit]
        ensures { result.now ≡ self.now }
    {
        self.literals.as_slice()
    }

    /// Adds a literal at the end. The cube has fewer than 2^32 - 1 literals. Memory may be refused
    /// only to a cube of four or more literals, and then the cube is unchanged.
    pub fn push(&mut self, lit: Lit) -> Result<(), NoMemory>
        requires { length self.old < 2 ^ 32 - 1 }
        ensures added { OnOk result (self.new ≡ self.old ++ lit ∷ []) }
        ensures short { length self.old < 4 → IsOk result }
        ensures unchanged { OnErr result (self.new ≡ self.old) }
    {
        self.literals.push(lit)?;
        Ok(())
    }
}
