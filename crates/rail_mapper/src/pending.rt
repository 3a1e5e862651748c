//! The latch pairs whose fronts are still to come.

ghost use Rattle.std.specs.Prelude.{◌≡◌, ◌≤◌, ◌+◌, ◌++◌, ◌∷◌, [], ℕ, length, OnOk};
ghost use Rattle.rail_mapper.specs.FrontStages.{WaitsFirst};

use droc_pairs::HalfPair;
use pulse_ids::NoMemory;
use std::alloc::Global;
use std::marker::Model;

/// Latch pairs whose fronts are still to come, each with its latch, in the order in which they were begun.
#[derive(Drop)]
pub(crate) struct Pending {
    halves: Vec<(u32, HalfPair)>,
    taken: usize,
}

impl Model for Pending {
    ghost use Rattle.std.specs.Prelude.{◌≤◌, ℕ, List, map, drop, length};
    ghost use Rattle.droc_pairs.specs.declared.pairs.HalfPair.{HalfPair as Halves};

    ghost Value = { List (ℕ × ℕ) };

    ghost view = { λ pending. map (λ (half : ℕ × Halves). (half.1.back.number, half.0)) (drop pending.taken pending.halves.items) };

    ghost invariant = { λ pending. pending.taken ≤ length pending.halves.items };
}

impl Pending {
    /// No pair. It takes no memory.
    pub(crate) fn none(alloc: Global) -> Pending
        ensures { result ≡ [] }
    {
        Pending {
            halves: Vec::new(alloc),
            taken: 0,
        }
    }

    /// How many there are.
    pub(crate) fn len(&self) -> usize
        ensures { result ≡ length self.now }
    {
        self.halves.len() - self.taken
    }

    /// The latch of the first.
    pub(crate) fn first(&self) -> u32
        requires { 1 ≤ length self.now }
        ensures { WaitsFirst result self.now }
    {
        self.halves[self.taken].0
    }

    /// Adds a latch's pair.
    pub(crate) fn push(&mut self, latch: u32, half: HalfPair) -> Result<(), NoMemory>
        ensures { OnOk result (self.new ≡ self.old ++ (let its : ℕ × ℕ = (half.back.number, latch) in its) ∷ []) }
    {
        self.halves.push((latch, half))?;
        Ok(())
    }

    /// Takes the first.
    pub(crate) fn take(&mut self) -> (u32, HalfPair)
        requires { 1 ≤ length self.old }
        ensures { self.old ≡ (let its : ℕ × ℕ = (result.1.back.number, result.0) in its) ∷ self.new }
    {
        let half = self.halves[self.taken];
        self.taken += 1;
        half
    }
}
