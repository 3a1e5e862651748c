//! The constant.

ghost use Rattle.std.specs.Prelude.{◌≡◌, ◌≤◌, ◌<◌, ◌⊎◌, ◌^◌, length, OnOk};
ghost use Rattle.rail_mapper.specs.Drafts.{readers_of, HasRoom};
ghost use Rattle.rail_mapper.specs.InputStages.{AddsConstant, HasConstant};

use crate::drafts::Draft;
use droc_pairs::{ConstLeaves, constant};
use pulse_ids::NoMemory;
use std::alloc::Global;

impl Draft {
    /// Adds the constant with the trees of both its rails, of which one is to be read.
    fn put_constant(&mut self, alloc: Global, ones: u32, zeros: u32) -> Result<(), NoMemory>
        requires ones { ones ≡ readers_of self.old 1 }
        requires zeros { zeros ≡ readers_of self.old 0 }
        requires some { (1 ≤ readers_of self.old 1) ⊎ (1 ≤ readers_of self.old 0) }
        requires places { 2 ≤ length self.old.stock }
        requires counters { 2 ≤ length self.old.counts }
        requires room { HasRoom 8 self.old }
        ensures { OnOk result (HasConstant self.old self.new) }
    {
        let ConstLeaves { one, zero } = constant(alloc, &mut self.net, ones, zeros)?;
        self.counts[1] = 0;
        self.counts[0] = 0;
        self.put(1, &one)?;
        self.put(0, &zero)
    }

    /// Adds the constant, where one of its rails is to be read.
    pub(crate) fn add_constant(&mut self, alloc: Global) -> Result<(), NoMemory>
        requires places { 2 ≤ length self.old.stock }
        requires counters { 2 ≤ length self.old.counts }
        requires room { HasRoom 8 self.old }
        ensures { OnOk result (AddsConstant self.old self.new) }
    {
        let zeros = self.readers(0);
        let ones = self.readers(1);
        if ones == 0 && zeros == 0 {
            return Ok(());
        }
        self.put_constant(alloc, ones, zeros)
    }
}
