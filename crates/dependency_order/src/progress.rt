//! How far the search for an order has come.

ghost use Rattle.std.specs.Prelude.{◌≡◌, ◌≤◌, ◌<◌, ◌^◌, ◌++◌, ◌∷◌, [], false, true, length, replicate, get_or, set, slice_index, IfOk, OnOk};
ghost use Rattle.dependency_order.specs.Dependencies.{AreBelow, AreInRange};
ghost use Rattle.dependency_order.specs.Searches.{Stage, IsReached, Advance, MarksAll, IsBegun};

use crate::dependencies::Dependencies;
use std::alloc::{AllocError, Global};
use std::marker::Model;

/// The numbers that are known, how far each item's needs are known, the items that have been ready, and
/// those that have come.
#[derive(Drop)]
pub(crate) struct Progress {
    known: Vec<bool>,
    places: Vec<u32>,
    queued: Vec<bool>,
    order: Vec<u32>,
}

impl Model for Progress {
    ghost use Rattle.dependency_order.specs.Searches.{Stage};

    ghost Value = { Stage };

    ghost view = { λ p. record { known = p.known.items; places = p.places.items; queued = p.queued.items; order = p.order.items } };
}

/// The first place from this one on whose number isn't known, or how many there are.
fn first_unknown(needs: &[u32], place: usize, known: &[bool]) -> usize
    requires within { place ≤ length needs.now }
    requires fit { AreBelow (length known.now) needs.now }
    ensures { IsReached needs.now known.now place result }
{
    let mut at = place;
    while at < needs.len() && known[needs[at] as usize] {
        at += 1;
    }
    at
}

fn bits(alloc: Global, count: usize) -> Result<Vec<bool>, AllocError>
    ensures { IfOk result (λ bits. bits.items ≡ replicate count false) }
{
    Ok(vec![in alloc; false; count]?)
}

fn zeros(alloc: Global, count: usize) -> Result<Vec<u32>, AllocError>
    ensures { IfOk result (λ numbers. numbers.items ≡ replicate count 0) }
{
    Ok(vec![in alloc; 0u32; count]?)
}

/// Sets the bits of these numbers.
fn set_bits(bits: &mut Vec<bool>, numbers: &[u32])
    requires { AreBelow (length bits.old.items) numbers.now }
    ensures { MarksAll bits.old.items numbers.now bits.new.items }
{
    for number in numbers {
        bits[*number as usize] = true;
    }
}

impl Progress {
    /// Only the start numbers are known.
    pub(crate) fn new(alloc: Global, dependencies: &Dependencies) -> Result<Progress, AllocError>
        requires { AreInRange dependencies.now }
        ensures { IfOk result (λ progress. IsBegun dependencies.now progress) }
    {
        let mut known = bits(alloc, dependencies.count())?;
        set_bits(&mut known, dependencies.starts());
        let places = zeros(alloc, dependencies.len())?;
        let queued = bits(alloc, dependencies.len())?;
        let order = Vec::with_capacity(alloc, dependencies.len())?;
        Ok(Progress {
            known,
            places,
            queued,
            order,
        })
    }

    /// Whether a number is known.
    pub(crate) fn knows(&self, number: u32) -> bool
        requires { number < length self.now.known }
        ensures { result ≡ get_or self.now.known number false }
    {
        self.known[number as usize]
    }

    /// Makes a number known.
    pub(crate) fn learn(&mut self, number: u32)
        requires { number < length self.old.known }
        ensures { self.new ≡ record { known = set self.old.known number true; places = self.old.places; queued = self.old.queued; order = self.old.order } }
    {
        self.known[number as usize] = true;
    }

    /// Puts an item last in the order.
    pub(crate) fn put(&mut self, item: u32) -> Result<(), AllocError>
        ensures { OnOk result (self.new ≡ record { known = self.old.known; places = self.old.places; queued = self.old.queued; order = self.old.order ++ item ∷ [] }) }
    {
        self.order.push(item)?;
        Ok(())
    }

    fn has_been_ready(&self, item: usize) -> bool
        requires { item < length self.now.queued }
        ensures { result ≡ get_or self.now.queued item false }
    {
        self.queued[item]
    }

    fn place(&self, item: usize) -> usize
        requires { item < length self.now.places }
        ensures { result ≡ slice_index self.now.places item }
    {
        self.places[item] as usize
    }

    /// The first place from this one on whose number isn't known, or how many needs there are.
    fn reach(&self, needs: &[u32], place: usize) -> usize
        requires within { place ≤ length needs.now }
        requires fit { AreBelow (length self.now.known) needs.now }
        ensures { IsReached needs.now self.now.known place result }
    {
        first_unknown(needs, place, &self.known)
    }

    fn set_place(&mut self, item: usize, place: usize)
        requires item { item < length self.old.places }
        requires low { place < 2 ^ 32 }
        ensures { self.new ≡ record { known = self.old.known; places = set self.old.places item place; queued = self.old.queued; order = self.old.order } }
    {
        self.places[item] = place as u32;
    }

    fn mark_ready(&mut self, item: usize)
        requires { item < length self.old.queued }
        ensures { self.new ≡ record { known = self.old.known; places = self.old.places; queued = set self.old.queued item true; order = self.old.order } }
    {
        self.queued[item] = true;
    }

    /// Goes on with an item, which needs these numbers. Whether it is ready now and wasn't before. Over all
    /// calls it passes each of its numbers once.
    pub(crate) fn advance(&mut self, needs: &[u32], item: usize) -> bool
        requires place { item < length self.old.places }
        requires queued { item < length self.old.queued }
        requires within { slice_index self.old.places item ≤ length needs.now }
        requires fit { AreBelow (length self.old.known) needs.now }
        requires few { length needs.now < 2 ^ 32 }
        ensures { Advance needs.now item self.old self.new result }
    {
        if self.has_been_ready(item) {
            return false;
        }
        let place = self.reach(needs, self.place(item));
        self.set_place(item, place);
        if place < needs.len() {
            return false;
        }
        self.mark_ready(item);
        true
    }

    /// The order, and the bits of the numbers that are known.
    pub(crate) fn into_parts(self) -> (Vec<u32>, Vec<bool>)
        ensures order { result.0.items ≡ self.order }
        ensures known { result.1.items ≡ self.known }
    {
        (self.order, self.known)
    }
}
