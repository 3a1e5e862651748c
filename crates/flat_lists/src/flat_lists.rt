//! Lists of lists in one flat table.

ghost use Rattle.std.specs.Prelude.{◌≡◌, ◌<◌, ◌≤◌, ◌-◌, ◌++◌, ◌∷◌, [], OnErr, OnOk, length, take, drop, get_or};
ghost use Rattle.flat_lists.specs.FlatLists.{PlainLists, ended_from, AreEnds};

use pulse_ids::NoMemory;
use std::alloc::Global;
use std::marker::Model;

/// Lists one after the other, whose items lie in one table, and a last list that has begun.
#[derive(Debug, Drop)]
pub struct FlatLists<T> {
    items: Vec<T>,
    // Where each list ends, and the next one begins.
    ends: Vec<usize>,
}

impl<T> Model for FlatLists<T> {
    ghost use Rattle.flat_lists.specs.FlatLists.{PlainLists, lists_of, AreEnds};

    ghost Value = { PlainLists T };

    ghost view = { λ lists. lists_of lists.ends.items lists.items.items };

    ghost invariant = { λ lists. AreEnds 0 lists.ends.items lists.items.items };
}

impl<T> FlatLists<T> {
    /// No lists. It takes no memory.
    pub fn new(alloc: Global) -> FlatLists<T>
        ensures { result ≡ record { lists = []; begun = [] } }
    {
        FlatLists {
            items: Vec::new(alloc),
            ends: Vec::new(alloc),
        }
    }

    /// How many lists have ended.
    #[tactic(auto, using(crate::proofs::EndedLists::length_lists))]
    pub fn len(&self) -> usize
        ensures { result ≡ length self.now.lists }
    {
        self.ends.len()
    }

    /// The list of this number, and an empty one where there is none.
    pub fn get(&self, k: usize) -> &[T]
        ensures { result.now ≡ get_or self.now.lists k [] }
    {
        if k < self.ends.len() {
            part_of(&self.items, &self.ends, k)
        } else {
            &self.items[..0]
        }
    }

    /// Adds an item to the list that has begun. Where memory is refused nothing changes.
    pub fn push(&mut self, item: T) -> Result<(), NoMemory>
    where
        T: Drop,
        ensures added { OnOk result (self.new ≡ record self.old { begun = self.old.begun ++ item ∷ [] }) }
        ensures same { OnErr result (self.new ≡ self.old) }
    {
        self.items.push(item)?;
        Ok(())
    }

    /// Ends the list that has begun, and begins the next one. Where memory is refused nothing changes.
    pub fn end(&mut self) -> Result<(), NoMemory>
        ensures ended { OnOk result (self.new ≡ record { lists = self.old.lists ++ self.old.begun ∷ []; begun = [] }) }
        ensures same { OnErr result (self.new ≡ self.old) }
    {
        self.ends.push(self.items.len())?;
        Ok(())
    }

    /// Ends the list that has begun with these items, and begins the next one. Where memory is refused nothing changes.
    pub fn end_with(&mut self, items: &[T]) -> Result<(), NoMemory>
    where
        T: Copy,
        ensures ended { OnOk result (self.new ≡ record { lists = self.old.lists ++ (self.old.begun ++ items.now) ∷ []; begun = [] }) }
        ensures same { OnErr result (self.new ≡ self.old) }
    {
        self.ends.reserve(1)?;
        self.items.extend_from_slice(items)?;
        self.ends.push_reserved(self.items.len());
        Ok(())
    }
}

/// Where the list of a number begins.
fn start_of(ends: &[usize], k: usize) -> usize
    requires { k < length ends.now }
    ensures { result ≡ get_or (0 ∷ ends.now) k 0 }
{
    if k == 0 { 0 } else { ends[k - 1] }
}

/// Where the list of a number begins and ends.
fn span_of<T>(items: &[T], ends: &[usize], k: usize) -> (usize, usize)
    requires ends { AreEnds 0 ends.now items.now }
    requires there { k < length ends.now }
    ensures rise { result.0 ≤ result.1 }
    ensures within { result.1 ≤ length items.now }
    ensures is { get_or (ended_from 0 ends.now items.now) k [] ≡ take (result.1 - result.0) (drop result.0 items.now) }
{
    (start_of(ends, k), ends[k])
}

/// The list of a number that has one.
fn part_of<'a, T>(items: &'a [T], ends: &[usize], k: usize) -> &'a [T]
    requires ends { AreEnds 0 ends.now items.now }
    requires there { k < length ends.now }
    ensures { result.now ≡ get_or (ended_from 0 ends.now items.now) k [] }
{
    let (start, end) = span_of(items, ends, k);
    &items[start..end]
}
