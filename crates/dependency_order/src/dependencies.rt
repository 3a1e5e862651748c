//! Items, each with the numbers that it needs and the numbers that it yields.

ghost use Rattle.std.specs.Prelude.{◌≡◌, ◌<◌, ◌^◌, length, IfOk, OnOk, OnErr};
ghost use Rattle.dependency_order.specs.Lists.{total};
ghost use Rattle.dependency_order.specs.Dependencies.{AreBelow, AreInRange, StaysSmall, no_items, with_starts, with_item, needs_of, yields_of};

use crate::lists::Lists;
use std::alloc::{AllocError, Global};
use std::marker::Model;

/// Numbers below a count, of which some are known at the start, and items, each with the numbers that it
/// needs and the numbers that it yields. An item's number is its place, from 0. There are fewer than 2^32
/// items, and fewer than 2^32 needs and yields of all items together.
#[derive(Debug, Drop)]
pub struct Dependencies {
    count: usize,
    starts: Vec<u32>,
    needs: Lists,
    yields: Lists,
}

/// For how many start numbers, items, needs and yields memory is taken at first. More are possible.
#[derive(Clone, Copy, Debug)]
pub struct Totals {
    pub starts: usize,
    pub items: usize,
    pub needs: usize,
    pub yields: usize,
}

impl Model for Dependencies {
    ghost use Rattle.dependency_order.specs.Lists.{lists_of, IsTable};
    ghost use Rattle.dependency_order.specs.Dependencies.{PlainDependencies, AreInRange};

    ghost Value = { PlainDependencies };

    ghost view = { λ d. record { count = d.count; starts = d.starts.items; needs = lists_of d.needs; yields = lists_of d.yields } };

    ghost invariant = { λ d. IsTable d.needs × IsTable d.yields
        × AreInRange (record { count = d.count; starts = d.starts.items; needs = lists_of d.needs; yields = lists_of d.yields }) };
}

impl Dependencies {
    /// No item, and numbers below this count. It takes no memory.
    pub fn new(alloc: Global, count: usize) -> Dependencies
        ensures { result ≡ no_items count }
    {
        Dependencies {
            count,
            starts: Vec::new(alloc),
            needs: Lists::new(alloc),
            yields: Lists::new(alloc),
        }
    }

    /// No item, and numbers below this count, with memory for these totals.
    pub fn with_capacity(
        alloc: Global,
        count: usize,
        totals: Totals,
    ) -> Result<Dependencies, AllocError>
        ensures { IfOk result (λ made. made ≡ no_items count) }
    {
        let starts = Vec::with_capacity(alloc, totals.starts)?;
        let needs = Lists::with_capacity(alloc, totals.items, totals.needs)?;
        let yields = Lists::with_capacity(alloc, totals.items, totals.yields)?;
        Ok(Dependencies {
            count,
            starts,
            needs,
            yields,
        })
    }

    /// Lets more numbers be known at the start. It fails only for want of memory, and then changes nothing.
    pub fn start(&mut self, numbers: &[u32]) -> Result<(), AllocError>
        requires { AreBelow self.old.count numbers.now }
        ensures ok { OnOk result (self.new ≡ with_starts self.old numbers.now) }
        ensures err { OnErr result (self.new ≡ self.old) }
    {
        self.starts.extend_from_slice(numbers)?;
        Ok(())
    }

    /// Adds an item at the end. A number may be needed or yielded more than once. It fails only for want of
    /// memory, and then changes nothing.
    pub fn push(&mut self, needs: &[u32], yields: &[u32]) -> Result<(), AllocError>
        requires needs { AreBelow self.old.count needs.now }
        requires yields { AreBelow self.old.count yields.now }
        requires small { StaysSmall self.old needs.now yields.now }
        ensures ok { OnOk result (self.new ≡ with_item self.old needs.now yields.now) }
        ensures err { OnErr result (self.new ≡ self.old) }
    {
        self.needs.reserve(needs.len())?;
        self.yields.reserve(yields.len())?;
        self.needs.push(needs)?;
        self.yields.push(yields)?;
        Ok(())
    }

    /// How many numbers there are.
    pub fn count(&self) -> usize
        ensures { result ≡ self.now.count }
    {
        self.count
    }

    /// How many items there are.
    pub fn len(&self) -> usize
        ensures { result ≡ length self.now.needs }
    {
        self.needs.len()
    }

    /// A law: dependencies are in range, by the way that they are made.
    pub fn range(&self)
        ensures { AreInRange self.now }
    {
        let _ = &self.count;
    }

    /// How many needs all items have together.
    pub(crate) fn need_count(&self) -> usize
        ensures { result ≡ total self.now.needs }
    {
        self.needs.total()
    }

    /// The numbers known at the start.
    pub(crate) fn starts(&self) -> &[u32]
        ensures { result.now ≡ self.now.starts }
    {
        self.starts.as_slice()
    }

    /// The numbers that an item needs.
    pub(crate) fn needs(&self, item: u32) -> &[u32]
        requires { item < length self.now.needs }
        ensures { result.now ≡ needs_of self.now item }
    {
        self.needs.get(item as usize)
    }

    /// The numbers that an item yields.
    pub(crate) fn yields(&self, item: u32) -> &[u32]
        requires { item < length self.now.yields }
        ensures { result.now ≡ yields_of self.now item }
    {
        self.yields.get(item as usize)
    }
}
