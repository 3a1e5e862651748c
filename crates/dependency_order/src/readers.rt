//! The items that need each number.

ghost use Rattle.std.specs.Prelude.{◌≡◌, ◌<◌, ◌+◌, ◌^◌, [], length, replicate, slice_index, IfOk, OnOk};
ghost use Rattle.dependency_order.specs.Dependencies.{AreBelow, AreInRange};
ghost use Rattle.dependency_order.specs.Readers.{Links, LinksMore, AreLinks, LinksAdded};
ghost use Rattle.dependency_order.specs.Searches.{AreReaders};

use crate::dependencies::Dependencies;
use std::alloc::{AllocError, Global};
use std::marker::Model;

/// For each number the items that need it, as lists that are linked by the places of their items plus 1,
/// and end in 0.
#[derive(Debug, Drop)]
pub(crate) struct Readers {
    heads: Vec<u32>,
    owners: Vec<u32>,
    nexts: Vec<u32>,
}

impl Model for Readers {
    ghost use Rattle.dependency_order.specs.Readers.{Links};

    ghost Value = { Links };

    ghost view = { λ readers. record { heads = readers.heads.items; owners = readers.owners.items; nexts = readers.nexts.items } };
}

impl Readers {
    /// Nothing needs any of so many numbers, with memory for so many needs.
    fn new(alloc: Global, count: usize, needs: usize) -> Result<Readers, AllocError>
        ensures { IfOk result (λ readers. readers ≡ record { heads = replicate count 0; owners = []; nexts = [] }) }
    {
        let heads = vec![in alloc; 0u32; count]?;
        let owners = Vec::with_capacity(alloc, needs)?;
        let nexts = Vec::with_capacity(alloc, needs)?;
        Ok(Readers {
            heads,
            owners,
            nexts,
        })
    }

    /// Adds one item to those that need a number.
    fn add(&mut self, number: u32, item: u32) -> Result<(), AllocError>
        requires number { number < length self.old.heads }
        requires few { length self.old.owners + 1 < 2 ^ 32 }
        ensures { OnOk result (LinksMore self.old number item self.new) }
    {
        let next = self.heads[number as usize];
        self.owners.push(item)?;
        self.nexts.push(next)?;
        self.heads[number as usize] = self.owners.len() as u32;
        Ok(())
    }

    /// Adds one item to those that need each of these numbers.
    fn add_all(&mut self, numbers: &[u32], item: u32) -> Result<(), AllocError>
        requires links { AreLinks self.old }
        requires fit { AreBelow (length self.old.heads) numbers.now }
        requires few { length self.old.owners + length numbers.now < 2 ^ 32 }
        ensures { OnOk result (LinksAdded self.old numbers.now item self.new) }
    {
        for number in numbers {
            self.add(*number, item)?;
        }
        Ok(())
    }

    /// The items that need each number.
    pub(crate) fn of(alloc: Global, dependencies: &Dependencies) -> Result<Readers, AllocError>
        requires { AreInRange dependencies.now }
        ensures { IfOk result (λ readers. AreReaders dependencies.now readers) }
    {
        let mut readers = Readers::new(alloc, dependencies.count(), dependencies.need_count())?;
        let count = dependencies.len() as u32;
        for item in 0..count {
            readers.add_all(dependencies.needs(item), item)?;
        }
        Ok(readers)
    }

    /// The first place of a number's list plus 1, or 0 where nothing needs it.
    pub(crate) fn head(&self, number: u32) -> u32
        requires { number < length self.now.heads }
        ensures { result ≡ slice_index self.now.heads number }
    {
        self.heads[number as usize]
    }

    /// The item at a place.
    pub(crate) fn owner(&self, place: u32) -> u32
        requires { place < length self.now.owners }
        ensures { result ≡ slice_index self.now.owners place }
    {
        self.owners[place as usize]
    }

    /// The next place of the same list plus 1, or 0 at its end.
    pub(crate) fn next(&self, place: u32) -> u32
        requires { place < length self.now.nexts }
        ensures { result ≡ slice_index self.now.nexts place }
    {
        self.nexts[place as usize]
    }
}
