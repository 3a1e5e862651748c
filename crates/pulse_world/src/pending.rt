//! The queue of the pending pulses.

ghost use Rattle.std.specs.Prelude.{◌≡◌, ◌<◌, ◌≤◌, ◌↔◌, ◌++◌, ◌-◌, ◌∷◌, [], true, false, None, Some, length, IfOk, IfSome, slice_get, slice_set};
ghost use Rattle.std.specs.List.{swap_remove};
ghost use Rattle.std.specs.Vec.{vec_capacity};
ghost use Rattle.pulse_ids.specs.Lists.{IsIn, occurrences};
ghost use Rattle.pulse_world.specs.PendingQueues.{queue_of};

use pulse_ids::{Bits, Ident, NoMemory, Row, WireId};
use std::alloc::Global;
use std::marker::Model;

/// Wires in a queue, each at most once, all below a bound. The place of a wire is found in constant time, and after
/// the queue is made it takes no memory.
#[derive(Debug, Drop)]
pub(crate) struct PendingQueue {
    wires: Vec<WireId>,
    // Where a wire of the queue stands. Of other wires it says nothing.
    places: Row<WireId, u32>,
    // Which wires stand in the queue.
    pending: Bits<WireId>,
}

impl Model for PendingQueue {
    ghost use Rattle.std.specs.Prelude.{length};
    ghost use Rattle.std.specs.Vec.{vec_capacity};
    ghost use Rattle.pulse_world.specs.PendingQueues.{PlainQueue, queue_of, IsQueueOf};

    ghost Value = { PlainQueue };

    ghost view = { λ queue. queue_of queue.wires.items (length queue.places) };

    ghost invariant = { λ queue. IsQueueOf (queue_of queue.wires.items (length queue.places)) queue.places queue.pending (vec_capacity queue.wires) };
}

impl PendingQueue {
    /// An empty queue for the wires below the bound.
    pub(crate) fn new(alloc: Global, bound: u32) -> Result<PendingQueue, NoMemory>
        ensures { IfOk result (λ queue. queue ≡ queue_of [] bound) }
    {
        let places = Row::filled(alloc, 0, bound)?;
        let pending = Bits::filled(alloc, bound)?;
        let wires = Vec::with_capacity(alloc, bound as usize)?;
        Ok(PendingQueue {
            wires,
            places,
            pending,
        })
    }

    /// How many wires stand in the queue, always at most the bound.
    pub(crate) fn len(&self) -> u32
        ensures count { result ≡ length self.now.wires }
        ensures most { length self.now.wires ≤ self.now.bound }
    {
        self.wires.len() as u32
    }

    /// The wire at a place, which is below the length.
    pub(crate) fn at(&self, place: u32) -> WireId
        requires { place < length self.now.wires }
        ensures { slice_get self.now.wires place ≡ Some result.number }
    {
        self.wires[place as usize]
    }

    /// The place of a wire, which may be any. None exactly where it does not stand in the queue.
    pub(crate) fn place_of(&self, wire: WireId) -> Option<u32>
        ensures found { IfSome result (λ place. slice_get self.now.wires place ≡ Some wire.number) }
        ensures none { result ≡ None → occurrences wire.number self.now.wires ≡ 0 }
    {
        if self.has(wire) {
            Some(*self.places.get(wire))
        } else {
            None
        }
    }

    // Whether a wire, which may be any, stands in the queue.
    fn has(&self, wire: WireId) -> bool
        ensures { (result ≡ true) ↔ IsIn wire.number self.now.wires }
    {
        wire.number() < self.pending.len() && self.pending.get(wire)
    }

    /// Takes the wire at a place out; the last one of the queue moves into that place.
    #[inline(always)]
    pub(crate) fn take_at(&mut self, place: u32) -> WireId
        requires { place < length self.old.wires }
        ensures wire { slice_get self.old.wires place ≡ Some result.number }
        ensures rest { self.new ≡ record self.old { wires = swap_remove self.old.wires place 0 } }
    {
        let (wire, last) = swapped_out(&mut self.wires, place);
        self.places.set(last, place);
        unmark(&mut self.pending, wire);
        wire
    }

    /// Puts a wire at the end. It is below the bound and does not stand in the queue.
    #[inline(always)]
    pub(crate) fn append(&mut self, wire: WireId)
        requires below { wire.number < self.old.bound }
        requires apart { occurrences wire.number self.old.wires ≡ 0 }
        ensures { self.new ≡ record self.old { wires = self.old.wires ++ wire.number ∷ [] } }
    {
        let place = self.wires.len() as u32;
        self.wires.push_reserved(wire);
        self.places.set(wire, place);
        self.pending.set(wire, true);
    }
}

// Takes the wire at a place out, and moves the last one into that place. It answers the one that was taken and the one
// that was last, of which each is read once.
#[inline(always)]
fn swapped_out(wires: &mut Vec<WireId>, place: u32) -> (WireId, WireId)
    requires { place < length wires.old.items }
    ensures wire { slice_get wires.old.items place ≡ Some result.0 }
    ensures last { slice_get wires.old.items (length wires.old.items - 1) ≡ Some result.1 }
    ensures rest { wires.new.items ≡ swap_remove wires.old.items place result.1 }
    ensures room { vec_capacity wires.new ≡ vec_capacity wires.old }
{
    let last = wires.take_last();
    if place as usize == wires.len() {
        return (last, last);
    }
    let wire = wires[place as usize];
    wires[place as usize] = last;
    (wire, last)
}

// Sets the bit of a wire below their number to 0.
#[inline(always)]
fn unmark(marks: &mut Bits<WireId>, wire: WireId)
    requires { wire.number < length marks.old }
    ensures { marks.new ≡ slice_set marks.old wire.number false }
{
    marks.set(wire, false);
}
