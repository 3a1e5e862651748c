//! Tables that are read by one kind of number.

ghost use Rattle.std.specs.Prelude.{◌≡◌, ◌↔◌, ◌<◌, ◌-◌, ◌^◌, ◌++◌, ◌∷◌, [], List, Some, IsTrue, length, replicate, IfOk, OnOk, OnErr, slice_get, slice_set, option_copied};
ghost use Rattle.std.specs.Coded.{coded_list};

use crate::ids::Ident;
use crate::memory::NoMemory;
use std::alloc::Global;
use std::marker::{Model, PhantomData};

/// A list whose items are numbered from 0 by the identifiers `I`. An item is read in constant time.
#[derive(Debug, Drop)]
pub struct Row<I: Ident, T> {
    items: Vec<T>,
    kind: PhantomData<I>,
}

impl<I: Ident, T> Model for Row<I, T> {
    ghost Value = { List T };

    ghost coded = { coded_list T.code };

    ghost view = { λ row. row.items.items };

    ghost invariant = { λ row. length row.items.items < 2 ^ 32 };
}

impl<I: Ident, T> Row<I, T> {
    /// An empty row. It takes no memory.
    pub fn new(alloc: Global) -> Row<I, T>
        ensures { result ≡ [] }
    {
        Row {
            items: Vec::new(alloc),
            kind: PhantomData,
        }
    }

    /// A row of `n` equal items.
    pub fn filled(alloc: Global, item: T, n: u32) -> Result<Row<I, T>, NoMemory>
    where
        T: Copy,
        ensures { IfOk result (λ row. row ≡ replicate n item) }
    {
        Ok(Row {
            items: repeated(alloc, item, n)?,
            kind: PhantomData,
        })
    }

    /// How many items the row has, always below 2^32.
    pub fn len(&self) -> u32
        ensures { result ≡ length self.now }
    {
        self.items.len() as u32
    }

    /// Whether the row has no item.
    pub fn is_empty(&self) -> bool
        ensures { IsTrue result ↔ (self.now ≡ []) }
    {
        self.items.is_empty()
    }

    /// The item with this number, which is below the length.
    pub fn get(&self, id: I) -> &T
        requires { I.number_of id < length self.now }
        ensures { slice_get self.now (I.number_of id) ≡ Some result.now }
    {
        &self.items[id.number() as usize]
    }

    /// The item with this number. None exactly where the number is not below the length.
    pub fn try_get(&self, n: u32) -> Option<&T>
        ensures { option_copied result ≡ slice_get self.now n }
    {
        self.items.get(n as usize)
    }

    /// All items, in the order of their numbers.
    pub fn items(&self) -> &[T]
        ensures { result.now ≡ self.now }
    {
        self.items.as_slice()
    }

    /// Puts an item in the place of the one with this number, which is below the length. All other items stay.
    pub fn set(&mut self, id: I, item: T)
    where
        T: Drop,
        requires { I.number_of id < length self.old }
        ensures { self.new ≡ slice_set self.old (I.number_of id) item }
    {
        self.items[id.number() as usize] = item;
    }

    /// Adds an item at the end and answers its number, the old length. The row has fewer than
    /// 2^32 - 1 items. Where memory is refused the row is unchanged and the item is given up.
    pub fn push(&mut self, item: T) -> Result<I, NoMemory>
    where
        T: Drop,
        requires { length self.old < 2 ^ 32 - 1 }
        ensures added { OnOk result (self.new ≡ self.old ++ item ∷ []) }
        ensures number { IfOk result (λ id. I.number_of id ≡ length self.old) }
        ensures unchanged { OnErr result (self.new ≡ self.old) }
    {
        let number = self.items.len() as u32;
        self.items.push(item)?;
        Ok(I::new(number))
    }
}

// A list of `n` equal items.
#[tactic(auto, using(crate::proofs::Copies::replicate_last))]
fn repeated<T: Copy>(alloc: Global, item: T, n: u32) -> Result<Vec<T>, NoMemory>
    ensures { IfOk result (λ list. list.items ≡ replicate n item) }
{
    let mut list = Vec::with_capacity(alloc, n as usize)?;
    for _made in 0..n {
        list.push(item)?;
    }
    Ok(list)
}
