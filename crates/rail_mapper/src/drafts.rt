//! A netlist that is being made.

ghost use Rattle.std.specs.Prelude.{ℕ, ◌∷◌, [], ◌+◌, ◌≡◌, ◌≤◌, ◌<◌, ◌⊎◌, ◌^◌, true, length, IfOk, OnOk, slice_set};
ghost use Rattle.cell_netlist.specs.Netlists.{number_of_wires};
ghost use Rattle.rail_mapper.specs.Counts.{with_reads};
ghost use Rattle.rail_mapper.specs.Stages.{GrowsIf};
ghost use Rattle.rail_mapper.specs.Drafts.{total, leaves_of, readers_of, Takes, TakesBoth, Grows, Gated, HasRoom, AreInside, gate_cell, with_cell};

use crate::pending::Pending;
use crate::shelves::Shelves;
use cell_netlist::{Cell, Gate, Netlist};
use pulse_ids::{Ident, NoMemory, WireId};
use splitter_trees::{Leaves, spread};
use std::alloc::Global;
use std::marker::Model;

/// A netlist that is being made, with the leaves of each rail that are not read yet, and of how many readers each
/// rail is still to be spread over.
#[derive(Drop)]
pub(crate) struct Draft {
    pub(crate) net: Netlist,
    pub(crate) counts: Vec<u32>,
    pub(crate) stock: Shelves,
    pub(crate) pending: Pending,
}

impl Model for Draft {
    ghost use Rattle.std.specs.Prelude.{ℕ, ◌∷◌, [], ◌+◌, ℕ, map};
    ghost use Rattle.droc_pairs.specs.declared.pairs.HalfPair.{HalfPair as Halves};
    ghost use Rattle.rail_mapper.specs.Drafts.{PlainDraft};

    ghost Value = { PlainDraft };

    ghost view = { λ draft. record { net = draft.net; counts = draft.counts.items; stock = draft.stock; pending = draft.pending } };
}

impl Draft {
    /// Counts a read of a rail.
    #[tactic(auto, using(crate::proofs::Stocks::at_most_total))]
    pub(crate) fn count_read(&mut self, rail: u32)
        requires place { rail < length self.old.counts }
        requires few { total self.old.counts + 1 < 2 ^ 32 }
        ensures { self.new ≡ with_reads self.old (rail ∷ []) }
    {
        let count = self.readers(rail);
        self.counts[rail as usize] = count + 1;
    }

    /// Takes the next leaf of a rail.
    pub(crate) fn take(&mut self, rail: u32) -> WireId
        requires { 1 ≤ length (leaves_of self.old rail) }
        ensures { Takes rail result.number self.old self.new }
    {
        self.stock.take(rail)
    }

    /// Of how many readers the rail is still to be spread over.
    pub(crate) fn readers(&self, rail: u32) -> u32
        requires { rail < length self.now.counts }
        ensures { result ≡ readers_of self.now rail }
    {
        self.counts[rail as usize]
    }

    /// Of how many readers the rail is still to be spread over: from now on of none.
    fn take_readers(&mut self, rail: u32) -> u32
        requires { 1 ≤ readers_of self.old rail }
        ensures readers { result ≡ readers_of self.old rail }
        ensures taken { self.new ≡ record self.old { counts = slice_set self.old.counts rail 0 } }
    {
        let readers = self.counts[rail as usize];
        self.counts[rail as usize] = 0;
        readers
    }

    /// Puts the leaves of a rail that has none.
    pub(crate) fn put(&mut self, rail: u32, leaves: &Leaves) -> Result<(), NoMemory>
        requires { rail < length self.old.stock }
        ensures { OnOk result (self.new ≡ record self.old { stock = slice_set self.old.stock rail leaves.now }) }
    {
        self.stock.put(rail, leaves)
    }

    /// Spreads a rail over its readers, from a wire on.
    pub(crate) fn grow(&mut self, alloc: Global, rail: u32, root: WireId) -> Result<(), NoMemory>
        requires readers { 1 ≤ readers_of self.old rail }
        requires root { root.number < number_of_wires self.old.net }
        requires place { rail < length self.old.stock }
        requires room { HasRoom 0 self.old }
        ensures grows { OnOk result (Grows rail root.number self.old self.new) }
        ensures room { OnOk result ((more : ℕ) → HasRoom more self.old → HasRoom (more + 2) self.new) }
    {
        let readers = self.take_readers(rail);
        let leaves = spread(alloc, &mut self.net, root, readers)?;
        self.put(rail, &leaves)
    }

    /// Takes the next leaves of two rails.
    fn take_both(&mut self, low: u32, high: u32) -> (WireId, WireId)
        requires low { 1 ≤ length (leaves_of self.old low) }
        requires high { 1 ≤ length (leaves_of self.old high) }
        requires other { low ≡ high → ⊥ }
        requires inside { AreInside self.old }
        ensures taken { TakesBoth low high result.0.number result.1.number self.old self.new }
        ensures net { self.new.net ≡ self.old.net }
        ensures room { (more : ℕ) → HasRoom more self.old → HasRoom more self.new }
    {
        let a = self.take(low);
        let b = self.take(high);
        (a, b)
    }

    /// Adds a gate on two wires, which drives the next wire.
    fn put_gate(&mut self, gate: Gate, a: WireId, b: WireId) -> Result<WireId, NoMemory>
        requires a { a.number < number_of_wires self.old.net }
        requires b { b.number < number_of_wires self.old.net }
        requires room { HasRoom 1 self.old }
        ensures added { OnOk result (self.new ≡ with_cell self.old (gate_cell gate a.number b.number (number_of_wires self.old.net))) }
        ensures out { IfOk result (λ out. out.number ≡ number_of_wires self.old.net) }
        ensures wires { OnOk result (number_of_wires self.new.net ≡ number_of_wires self.old.net + 1) }
        ensures room { OnOk result ((more : ℕ) → HasRoom (more + 1) self.old → HasRoom more self.new) }
    {
        let out = WireId::new(self.net.wires());
        self.net.add_cell(cell_of(gate, a, b, out))?;
        Ok(out)
    }

    /// Adds a gate on the next leaves of two rails, and spreads its own rail.
    pub(crate) fn add_gate(
        &mut self,
        alloc: Global,
        gate: Gate,
        low: u32,
        high: u32,
        rail: u32,
    ) -> Result<(), NoMemory>
        requires low { 1 ≤ length (leaves_of self.old low) }
        requires high { 1 ≤ length (leaves_of self.old high) }
        requires other { low ≡ high → ⊥ }
        requires readers { 1 ≤ readers_of self.old rail }
        requires place { rail < length self.old.stock }
        requires inside { AreInside self.old }
        requires room { HasRoom 1 self.old }
        ensures gated { OnOk result (Gated gate low high rail self.old self.new) }
        ensures room { OnOk result ((more : ℕ) → HasRoom (more + 1) self.old → HasRoom (more + 2) self.new) }
    {
        let (a, b) = self.take_both(low, high);
        let out = self.put_gate(gate, a, b)?;
        self.grow(alloc, rail, out)
    }

    /// Spreads a rail over its readers, if it has any, from a wire that is then there.
    pub(crate) fn grow_if(&mut self, alloc: Global, rail: u32, root: u32) -> Result<(), NoMemory>
        requires root { 1 ≤ readers_of self.old rail → root < number_of_wires self.old.net }
        requires place { rail < length self.old.stock }
        requires counter { rail < length self.old.counts }
        requires room { HasRoom 0 self.old }
        ensures grows { OnOk result (GrowsIf rail root self.old self.new) }
        ensures room { OnOk result ((more : ℕ) → HasRoom more self.old → HasRoom more self.new) }
    {
        if self.readers(rail) == 0 {
            return Ok(());
        }
        self.grow(alloc, rail, WireId::new(root))
    }
}

// A gate with its wires.
fn cell_of(gate: Gate, a: WireId, b: WireId, out: WireId) -> Cell
    ensures { result ≡ gate_cell gate a.number b.number out.number }
{
    match gate {
        Gate::La => Cell::La { a, b, out },
        Gate::Fa => Cell::Fa { a, b, out },
    }
}
