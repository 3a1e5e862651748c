//! The order in which items come, and the numbers that get known.

ghost use Rattle.std.specs.Prelude.{◌≡◌, ◌≤◌, ◌<◌, [], ℕ, false, length, get_or, IfOk};
ghost use Rattle.dependency_order.specs.Agendas.{AllowsLowest};
ghost use Rattle.dependency_order.specs.Orders.{IsOrderOf, IsChosen};

use crate::agendas::{Agenda, Arrival, Lowest};
use crate::dependencies::Dependencies;
use crate::progress::Progress;
use crate::readers::Readers;
use crate::search::{take_all, visit_all};
use std::alloc::{AllocError, Global};
use std::marker::Model;

/// Items in an order in which each comes after all that it needs, and the numbers that get known.
#[derive(Debug, Drop)]
pub struct Order {
    items: Vec<u32>,
    known: Vec<bool>,
}

impl Model for Order {
    ghost use Rattle.dependency_order.specs.Orders.{PlainOrder};

    ghost Value = { PlainOrder };

    ghost view = { λ order. record { items = order.items.items; known = order.known.items } };
}

impl Order {
    /// The items in order.
    pub fn items(&self) -> &[u32]
        ensures { result.now ≡ self.now.items }
    {
        self.items.as_slice()
    }

    /// Takes the items in order out.
    pub fn into_items(self) -> Vec<u32>
        ensures { result.items ≡ self.items }
    {
        self.items
    }

    /// Whether a number, below the count, gets known.
    pub fn knows(&self, number: u32) -> bool
        requires { number < length self.now.known }
        ensures { result ≡ get_or self.now.known number false }
    {
        self.known[number as usize]
    }
}

/// The order of the items that can come, each once and after all that it needs, and no other item. Of those
/// that are ready the agenda chooses the next. It takes time and memory linear in the items, the numbers and
/// the lists, but for what the agenda takes, and fails only for want of memory.
pub fn order_of<A: Agenda + Drop>(
    alloc: Global,
    dependencies: &Dependencies,
    agenda: A,
) -> Result<Order, AllocError>
    requires none { A.waiting agenda ≡ [] }
    requires fits { (item : ℕ) → item < length dependencies.now.needs → A.fits (A.keys agenda) item }
    ensures order { IfOk result (λ order. IsOrderOf dependencies.now order) }
    ensures chosen { IfOk result (λ order. IsChosen (A.allows (A.keys agenda)) dependencies.now order.items) }
{
    dependencies.range();
    let mut agenda = agenda;
    let mut progress = Progress::new(alloc, dependencies)?;
    let readers = Readers::of(alloc, dependencies)?;
    visit_all(dependencies, &mut progress, &mut agenda)?;
    take_all(dependencies, &readers, &mut progress, &mut agenda)?;
    let (items, known) = progress.into_parts();
    Ok(Order { items, known })
}

/// The order of the items that can come. Which of those that are ready is next it does not promise. It takes
/// time and memory linear in the items, the numbers and the lists, and fails only for want of memory.
pub fn arrival_order(alloc: Global, dependencies: &Dependencies) -> Result<Order, AllocError>
    ensures { IfOk result (λ order. IsOrderOf dependencies.now order) }
{
    let agenda = Arrival::with_capacity(alloc, dependencies.len())?;
    order_of(alloc, dependencies, agenda)
}

/// The order of the items that can come, of those that are ready the one with the lowest key first, and of
/// equal keys the one with the lowest number. Each item has the key at its place. It takes time and memory as
/// `arrival_order` does, and for each item time logarithmic in those that wait. It fails only for want of
/// memory.
pub fn lowest_order(
    alloc: Global,
    dependencies: &Dependencies,
    keys: Vec<u32>,
) -> Result<Order, AllocError>
    requires { length dependencies.now.needs ≤ length keys.items }
    ensures order { IfOk result (λ order. IsOrderOf dependencies.now order) }
    ensures lowest { IfOk result (λ order. IsChosen (AllowsLowest keys.items) dependencies.now order.items) }
{
    let agenda = Lowest::with_keys(alloc, keys)?;
    order_of(alloc, dependencies, agenda)
}
