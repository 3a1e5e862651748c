//! Which of the items that are ready comes next.

ghost use Rattle.std.specs.Prelude.{◌≡◌, ◌<◌, ◌∷◌, ◌++◌, ℕ, List, [], length, map, slice_index, IfOk, IfSome, OnOk, OnErr, Contains, IsPermutation};
ghost use Rattle.dependency_order.specs.Agendas.{IsTaken, IsFirst, AllowsAny, AlwaysFits, AllowsLowest, HasKey};

use std::alloc::{AllocError, Global};
use std::cmp::Reverse;
use std::collections::{BinaryHeap, VecDeque};
use std::marker::Model;

/// Items that wait for their turn, and the rule by which one of them is next.
pub trait Agenda {
    /// The items that wait.
    ghost waiting: { Self → List ℕ };

    /// The keys of all items, which stay as they are.
    ghost keys: { Self → List ℕ };

    /// With these keys, whether the item may wait.
    ghost fits: { List ℕ → ℕ → Type 0 };

    /// With these keys, whether the first item may be taken while the second waits.
    ghost allows: { List ℕ → ℕ → ℕ → Type 0 };

    /// Lets an item wait.
    fn insert(&mut self, item: u32) -> Result<(), AllocError>
        requires { fits (keys self.old) item }
        ensures more { OnOk result (IsPermutation (item ∷ waiting self.old) (waiting self.new)) }
        ensures err { OnErr result (waiting self.new ≡ waiting self.old) }
        ensures kept { keys self.new ≡ keys self.old };

    /// Takes the item whose turn it is. None only where none waits.
    fn take(&mut self) -> Option<u32>
        ensures taken { IsTaken (waiting self.old) result (waiting self.new) }
        ensures allowed { IfSome result (λ item. (other : ℕ) → Contains (waiting self.old) other → allows (keys self.old) item other) }
        ensures kept { keys self.new ≡ keys self.old };
}

/// First come, first served: an item takes its turn in constant time.
#[derive(Debug, Drop)]
pub struct Arrival {
    items: VecDeque<u32>,
}

impl Model for Arrival {
    ghost use Rattle.std.specs.Prelude.{ℕ, List};

    ghost Value = { List ℕ };

    ghost view = { λ arrival. arrival.items.items };
}

impl Arrival {
    /// No item waits. There is memory for so many.
    pub fn with_capacity(alloc: Global, items: usize) -> Result<Arrival, AllocError>
        ensures { IfOk result (λ made. made ≡ []) }
    {
        let items = VecDeque::with_capacity(alloc, items)?;
        Ok(Arrival { items })
    }

    fn put_last(&mut self, item: u32) -> Result<(), AllocError>
        ensures ok { OnOk result (self.new ≡ self.old ++ item ∷ []) }
        ensures err { OnErr result (self.new ≡ self.old) }
    {
        self.items.push_back(item)?;
        Ok(())
    }

    fn take_first(&mut self) -> Option<u32>
        ensures { IsFirst self.old result self.new }
    {
        self.items.pop_front()
    }
}

impl Agenda for Arrival {
    ghost waiting = { λ arrival. arrival };

    ghost keys = { λ arrival. [] };

    ghost fits = { AlwaysFits };

    ghost allows = { AllowsAny };

    fn insert(&mut self, item: u32) -> Result<(), AllocError> {
        self.put_last(item)?;
        Ok(())
    }

    fn take(&mut self) -> Option<u32> {
        self.take_first()
    }
}

/// An item with its key. It compares by the key, and then by the item.
#[derive(Clone, Copy, Debug, PartialEq, Eq, PartialOrd, Ord)]
pub(crate) struct Turn {
    pub(crate) key: u32,
    pub(crate) item: u32,
}

fn turn_of(keys: &[u32], item: u32) -> Turn
    requires { item < length keys.now }
    ensures { result ≡ record { key = slice_index keys.now item; item = item } }
{
    Turn {
        key: keys[item as usize],
        item,
    }
}

/// Lowest key first, and of equal keys the lowest item: an item takes its turn in time logarithmic in
/// those that wait.
#[derive(Drop)]
pub struct Lowest {
    keys: Vec<u32>,
    heap: BinaryHeap<Reverse<Turn>>,
}

impl Model for Lowest {
    ghost use Rattle.std.specs.Prelude.{map, All, ◌≡◌, slice_index};
    ghost use Rattle.std.specs.BinaryHeap.{IsHeap, heap_items};
    ghost use Rattle.dependency_order.specs.Agendas.{PlainLowest};

    ghost Value = { PlainLowest };

    ghost view = { λ lowest. record { keys = lowest.keys.items; waiting = map (λ turn. turn.0.item) (heap_items lowest.heap) } };

    ghost invariant = { λ lowest. IsHeap ⟦<Reverse<Turn> as Ord>⟧.cmp (heap_items lowest.heap)
        × All (λ turn. turn.0.key ≡ slice_index lowest.keys.items turn.0.item) (heap_items lowest.heap) };
}

impl Lowest {
    /// No item waits. Each item has the key at its place, and there is memory for all of them.
    pub fn with_keys(alloc: Global, keys: Vec<u32>) -> Result<Lowest, AllocError>
        ensures { IfOk result (λ made. made ≡ record { keys = keys.items; waiting = [] }) }
    {
        let heap = BinaryHeap::with_capacity(alloc, keys.len())?;
        Ok(Lowest { keys, heap })
    }
}

impl Agenda for Lowest {
    ghost waiting = { λ lowest. lowest.waiting };

    ghost keys = { λ lowest. lowest.keys };

    ghost fits = { HasKey };

    ghost allows = { AllowsLowest };

    fn insert(&mut self, item: u32) -> Result<(), AllocError> {
        self.heap.push(Reverse(turn_of(&self.keys, item)))?;
        Ok(())
    }

    fn take(&mut self) -> Option<u32> {
        let Some(turn) = self.heap.pop() else {
            return None;
        };
        Some(turn.0.item)
    }
}
