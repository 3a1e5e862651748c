//! The fronts of latch pairs, in the order in which the pairs were begun.

ghost use Rattle.std.specs.Prelude.{◌≡◌, ◌≤◌, length, OnOk};
ghost use Rattle.rail_mapper.specs.FrontStages.{WaitsFirst, CanFinish, FinishesFirst};

use crate::drafts::Draft;
use droc_pairs::{HalfPair, finish_pair};
use pulse_ids::NoMemory;

impl Draft {
    /// How many latch pairs wait for their fronts.
    pub(crate) fn waiting(&self) -> usize
        ensures { result ≡ length self.now.pending }
    {
        self.pending.len()
    }

    /// The latch of the first pair that waits for its front. There is one.
    pub(crate) fn first_waiting(&self) -> u32
        requires { 1 ≤ length self.now.pending }
        ensures { WaitsFirst result self.now.pending }
    {
        self.pending.first()
    }

    /// Adds the front of the first pair that waits. It takes the next leaf of the rail; the latch's first bit is given.
    pub(crate) fn put_front(&mut self, rail: u32, init: bool) -> Result<(), NoMemory>
        requires { CanFinish rail init self.old }
        ensures { OnOk result (FinishesFirst rail init self.old self.new) }
    {
        let next = self.take(rail);
        let (_, half) = self.pending.take();
        let pair = HalfPair { init, ..half };
        finish_pair(&mut self.net, pair, next)
    }
}
