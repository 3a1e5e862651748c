//! Lists of numbers in one table.

ghost use Rattle.std.specs.Prelude.{◌≡◌, ◌<◌, ◌+◌, ◌^◌, ◌++◌, ◌∷◌, [], length, get_or, slice_index, IfOk, OnOk, IsOk};
ghost use Rattle.dependency_order.specs.Lists.{lists_from, AreEnds, lists_of, IsTable, HasRoom};

use std::alloc::{AllocError, Global};

/// Lists of numbers, one behind the other in one table, with the place where each ends.
#[derive(Debug, Drop)]
pub(crate) struct Lists {
    values: Vec<u32>,
    ends: Vec<u32>,
}

impl Lists {
    /// No list, and no memory.
    pub(crate) fn new(alloc: Global) -> Lists
        ensures lists { lists_of result ≡ [] }
        ensures table { IsTable result }
    {
        Lists {
            values: Vec::new(alloc),
            ends: Vec::new(alloc),
        }
    }

    /// No list, and memory for so many lists with so many values in all.
    pub(crate) fn with_capacity(
        alloc: Global,
        lists: usize,
        values: usize,
    ) -> Result<Lists, AllocError>
        ensures lists { IfOk result (λ made. lists_of made ≡ []) }
        ensures table { IfOk result IsTable }
    {
        let values = Vec::with_capacity(alloc, values)?;
        let ends = Vec::with_capacity(alloc, lists)?;
        Ok(Lists { values, ends })
    }

    /// How many lists there are.
    pub(crate) fn len(&self) -> usize
        ensures { result ≡ length (lists_of self.now) }
    {
        self.ends.len()
    }

    /// How many values the lists have.
    pub(crate) fn total(&self) -> usize
        ensures { result ≡ length self.now.values.items }
    {
        self.values.len()
    }

    /// Makes room for one more list of so many values.
    pub(crate) fn reserve(&mut self, count: usize) -> Result<(), AllocError>
        ensures values { self.new.values.items ≡ self.old.values.items }
        ensures ends { self.new.ends.items ≡ self.old.ends.items }
        ensures room { OnOk result (HasRoom self.new count) }
    {
        self.values.reserve(count)?;
        self.ends.reserve(1)?;
        Ok(())
    }

    /// Adds a list at the end, for which there is room.
    pub(crate) fn push(&mut self, list: &[u32]) -> Result<(), AllocError>
        requires table { IsTable self.old }
        requires few { length self.old.values.items + length list.now < 2 ^ 32 }
        requires room { HasRoom self.old (length list.now) }
        ensures ok { IsOk result }
        ensures lists { lists_of self.new ≡ lists_of self.old ++ list.now ∷ [] }
        ensures table { IsTable self.new }
    {
        self.values.extend_from_slice(list)?;
        let end = self.values.len() as u32;
        self.ends.push(end)?;
        Ok(())
    }

    /// The list of a number, which is below how many there are.
    pub(crate) fn get(&self, number: usize) -> &[u32]
        requires table { IsTable self.now }
        requires number { number < length (lists_of self.now) }
        ensures { result.now ≡ get_or (lists_of self.now) number [] }
    {
        piece(&self.values, &self.ends, number)
    }
}

fn begin_of(ends: &[u32], number: usize) -> usize
    requires { number < length ends.now }
    ensures { result ≡ slice_index (0 ∷ ends.now) number }
{
    if number == 0 {
        0
    } else {
        ends[number - 1] as usize
    }
}

fn piece<'a>(values: &'a [u32], ends: &[u32], number: usize) -> &'a [u32]
    requires ends { AreEnds 0 ends.now values.now }
    requires number { number < length ends.now }
    ensures { result.now ≡ get_or (lists_from 0 ends.now values.now) number [] }
{
    &values[begin_of(ends, number)..ends[number] as usize]
}
