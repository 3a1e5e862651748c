//! Latch pairs: all backs with their trees before the conjunctions, and all fronts after them.

ghost use Rattle.std.specs.Prelude.{◌≡◌, ◌≤◌, ◌<◌, ◌+◌, ◌*◌, ◌⊎◌, ◌^◌, ◌++◌, ◌∷◌, [], ℕ, true, length, slice_get, Some, IfOk, OnOk};
ghost use Rattle.aig_core.specs.Graphs.{first_conjunction};
ghost use Rattle.pulse_ids.specs.Quantities.{greatest_of};
ghost use Rattle.pulse_ids.specs.declared.quantities.Quantity.TheVariants.{Latches};
ghost use Rattle.cell_netlist.specs.Netlists.{number_of_wires};
ghost use Rattle.cell_netlist.specs.States.{IsAboveStates};
ghost use Rattle.droc_pairs.specs.Pairs.{wires_for};
ghost use Rattle.rail_mapper.specs.Drafts.{readers_of, HasRoom};
ghost use Rattle.rail_mapper.specs.Labels.{rail_number};
ghost use Rattle.rail_mapper.specs.LatchStages.{BacksAt};
ghost use Rattle.rail_mapper.specs.StateLines.{line_if};
ghost use Rattle.rail_mapper.specs.Stages.{IsPlan, begun_draft, HasBegun, BeginsLatch};

use crate::drafts::Draft;
use cell_netlist::{StateLine, Version};
use droc_pairs::begin_pair;
use pulse_ids::{CellId, Ident, NoMemory, Sign};
use std::alloc::Global;

// How many wires an output takes.
fn wires_of(asked: bool) -> u32
    ensures value { result ≡ wires_for asked }
    ensures few { result ≤ 1 }
{
    if asked { 1 } else { 0 }
}

impl Draft {
    /// Names the cell that keeps a latch by a state line, in version two.
    fn name_state(&mut self, latch: u32, cell: CellId) -> Result<(), NoMemory>
        requires limit { latch < greatest_of Latches }
        requires above { IsAboveStates latch self.old.net.states }
        ensures { OnOk result (self.new ≡ record self.old { net = record self.old.net { states = self.old.net.states ++ line_if self.old.net.version latch cell.number } }) }
    {
        match self.net.version() {
            Version::One => Ok(()),
            Version::Two => self.net.add_state(StateLine { latch, cell }),
        }
    }

    /// Adds the back of a latch, with the asked outputs.
    fn put_back(&mut self, latch: u32, init: bool, q: bool, n: bool) -> Result<(), NoMemory>
        requires asked { (q ≡ true) ⊎ (n ≡ true) }
        requires wires { number_of_wires self.old.net ≤ 4194300 }
        requires cells { length self.old.net.cells < 2 ^ 26 }
        requires limit { latch < greatest_of Latches }
        requires above { IsAboveStates latch self.old.net.states }
        ensures begun { OnOk result (self.new ≡ begun_draft self.old latch init q n) }
        ensures wires { OnOk result (number_of_wires self.new.net ≡ number_of_wires self.old.net + wires_for q + wires_for n) }
    {
        let half = begin_pair(&mut self.net, init, q, n)?;
        self.name_state(latch, half.back)?;
        self.pending.push(latch, half)
    }

    /// Adds the back of a latch, whose asked outputs are those that are to be read, with their trees.
    fn start_latch(
        &mut self,
        alloc: Global,
        latch: u32,
        init: bool,
        pos: u32,
        neg: u32,
    ) -> Result<(), NoMemory>
        requires some { (1 ≤ readers_of self.old pos) ⊎ (1 ≤ readers_of self.old neg) }
        requires pos_place { pos < length self.old.stock }
        requires neg_place { neg < length self.old.stock }
        requires pos_counter { pos < length self.old.counts }
        requires neg_counter { neg < length self.old.counts }
        requires room { HasRoom (2 ^ 16) self.old }
        requires behind { pos < neg }
        requires limit { latch < greatest_of Latches }
        requires above { IsAboveStates latch self.old.net.states }
        ensures { OnOk result (HasBegun latch init pos neg self.old self.new) }
    {
        let q = self.readers(pos) > 0;
        let n = self.readers(neg) > 0;
        let root = self.net.wires();
        self.put_back(latch, init, q, n)?;
        self.grow_if(alloc, pos, root)?;
        self.grow_if(alloc, neg, root + wires_of(q))
    }

    /// Adds the back of a latch with its trees, where a rail of the latch is to be read. The numbers of both rails
    /// are given.
    pub(crate) fn begin_latch(
        &mut self,
        alloc: Global,
        latch: u32,
        init: bool,
        pos: u32,
        neg: u32,
    ) -> Result<(), NoMemory>
        requires pos_place { pos < length self.old.stock }
        requires neg_place { neg < length self.old.stock }
        requires pos_counter { pos < length self.old.counts }
        requires neg_counter { neg < length self.old.counts }
        requires room { HasRoom (2 ^ 16) self.old }
        requires behind { pos < neg }
        requires limit { latch < greatest_of Latches }
        requires above { IsAboveStates latch self.old.net.states }
        ensures { OnOk result (BeginsLatch latch init pos neg self.old self.new) }
    {
        if self.readers(pos) == 0 && self.readers(neg) == 0 {
            return Ok(());
        }
        self.start_latch(alloc, latch, init, pos, neg)
    }
}
