//! The sink, and what it holds back.

ghost use Rattle.std.specs.Prelude.{◌≡◌, ◌≤◌, ◌<◌, ◌-◌, ◌^◌, ◌++◌, [], false, true, take, drop, length, IfOk, IsErr, IsFalse, IsTrue, OnErr, OnOk};
ghost use Rattle.std.specs.Io.{WritesAtMost};
ghost use Rattle.std.specs.Io.KnownBytes.{Appends, Keeps, WriteAppends, append_known};
ghost use Rattle.std.proofs.Math.Nat.{min-le_right};
ghost use Rattle.byte_ports.specs.Causes.{HasCause, Rose, as_count, one_more};

use byte_ports::{Failed, Sink};
use std::alloc::Global;

/// How many bytes are held back, where there is memory for them.
const ROOM: usize = 8_192;

/// A sink over another one, which gathers pieces of less than 8,192 bytes and hands them on together. What it has
/// taken is what the sink below took and, after it, what is held back.
///
/// Once a call of the sink below has failed, every call fails, and none reaches the sink below. What is held back
/// then, and whenever the value is given up, goes nowhere: only a flush that succeeded tells that all was handed
/// on. Where a call succeeds, no call of the sink below has failed in it.
#[derive(Drop)]
pub struct BufferedSink<K> {
    sink: K,
    held: Vec<u8>,
    broken: bool,
    faults: u64,
    flushed: bool,
}

impl<K: Sink> BufferedSink<K> {
    /// A sink over this one, with no fault, that isn't flushed. Where memory is refused it holds nothing back, and
    /// each piece goes on at once.
    pub fn new(alloc: Global, sink: K) -> BufferedSink<K>
        ensures taken { Keeps (K.taken sink) (⟦<BufferedSink<K> as Sink>⟧.taken result) }
        ensures faults { ⟦<BufferedSink<K> as Sink>⟧.faults result ≡ 0 }
        ensures flushed { ⟦<BufferedSink<K> as Sink>⟧.flushed result ≡ false }
    {
        let held = match Vec::with_capacity(alloc, ROOM) {
            Ok(held) => held,
            Err(_) => Vec::new(alloc),
        };
        BufferedSink {
            sink,
            held,
            broken: false,
            faults: 0,
            flushed: false,
        }
    }

    /// From now on every call fails.
    fn fail(&mut self) -> Failed
        ensures sink { self.new.sink ≡ self.old.sink }
        ensures held { self.new.held ≡ self.old.held }
        ensures broken { IsTrue self.new.broken }
        ensures counted { self.new.faults ≡ one_more self.old.faults }
        ensures unflushed { IsFalse self.new.flushed }
    {
        self.broken = true;
        self.faults = self.faults.saturating_add(1);
        self.flushed = false;
        Failed
    }

    /// Holds a piece back if there is room for it, and tells whether it did.
    fn hold(&mut self, bytes: &[u8]) -> bool
        ensures held { IsTrue result → self.new.held.items ≡ self.old.held.items ++ bytes.now }
        ensures not_held { IsFalse result → self.new.held ≡ self.old.held }
        ensures sink { self.new.sink ≡ self.old.sink }
        ensures broken { self.new.broken ≡ self.old.broken }
        ensures faults { self.new.faults ≡ self.old.faults }
        ensures flushed { self.new.flushed ≡ self.old.flushed }
    {
        bytes.len() <= self.held.capacity() - self.held.len()
            && self.held.extend_from_slice(bytes).is_ok()
    }

    /// Hands on what is held back.
    fn send(&mut self) -> Result<(), Failed>
        ensures taken { Keeps (append_known (K.taken self.old.sink) self.old.held.items) (append_known (K.taken self.new.sink) self.new.held.items) }
        ensures sent { OnOk result (self.new.held.items ≡ []) }
        ensures calm_below { OnOk result (K.faults self.new.sink ≡ K.faults self.old.sink) }
        ensures failed_below { OnErr result (Rose (K.faults self.old.sink) (K.faults self.new.sink)) }
        ensures calm { OnOk result (self.new.faults ≡ self.old.faults) }
        ensures whole { OnOk result (self.new.broken ≡ self.old.broken) }
        ensures flushed { OnOk result (self.new.flushed ≡ self.old.flushed) }
        ensures broken { OnErr result (IsTrue self.new.broken) }
        ensures counted { OnErr result (self.new.faults ≡ one_more self.old.faults) }
        ensures unflushed { OnErr result (IsFalse self.new.flushed) }
    {
        let (count, answer) = send_prefix(&mut self.sink, self.held.as_slice());
        remove_prefix(&mut self.held, count);
        match answer {
            Ok(()) => Ok(()),
            Err(_) => Err(self.fail()),
        }
    }

    /// Hands on a piece where nothing is held back.
    fn pass(&mut self, bytes: &[u8]) -> Result<usize, Failed>
        requires { self.old.held.items ≡ [] }
        ensures bound { WritesAtMost result bytes.now }
        ensures progress { 0 < length bytes.now → IfOk result (λ count. 0 < count) }
        ensures bytes { WriteAppends (K.taken self.old.sink) (K.taken self.new.sink) result bytes.now }
        ensures held { self.new.held ≡ self.old.held }
        ensures calm_below { OnOk result (K.faults self.new.sink ≡ K.faults self.old.sink) }
        ensures failed_below { OnErr result (Rose (K.faults self.old.sink) (K.faults self.new.sink)) }
        ensures calm { OnOk result (self.new.faults ≡ self.old.faults) }
        ensures whole { OnOk result (self.new.broken ≡ self.old.broken) }
        ensures flushed { OnOk result (self.new.flushed ≡ self.old.flushed) }
        ensures broken { OnErr result (IsTrue self.new.broken) }
        ensures counted { OnErr result (self.new.faults ≡ one_more self.old.faults) }
        ensures unflushed { OnErr result (IsFalse self.new.flushed) }
    {
        match self.sink.write(bytes) {
            Ok(count) => Ok(count),
            Err(_) => Err(self.fail()),
        }
    }
}

impl<K: Sink> Sink for BufferedSink<K> {
    ghost taken = { λ s. append_known (K.taken s.sink) s.held.items };

    ghost faults = { λ s. as_count s.faults };

    ghost flushed = { λ s. s.flushed };

    ghost limit = { λ s. min-le_right s.faults (2 ^ 64 - 1) };

    fn write(&mut self, bytes: &[u8]) -> Result<usize, Failed>
        ensures bound { WritesAtMost result bytes.now }
        ensures progress { 0 < length bytes.now → IfOk result (λ count. 0 < count) }
        ensures bytes { WriteAppends (append_known (K.taken self.old.sink) self.old.held.items) (append_known (K.taken self.new.sink) self.new.held.items) result bytes.now }
        ensures cause { HasCause (as_count self.old.faults) (as_count self.new.faults) result }
        ensures unflushed { IsFalse self.new.flushed }
        ensures stops { OnErr result (IsTrue self.new.broken) }
        ensures goes_on { OnOk result (IsFalse self.new.broken) }
        ensures stopped { IsTrue self.old.broken → IsErr result }
        ensures spared { IsTrue self.old.broken → self.new.sink ≡ self.old.sink }
        ensures calm_below { OnOk result (K.faults self.new.sink ≡ K.faults self.old.sink) }
        ensures failed_below { OnErr result (IsFalse self.old.broken → Rose (K.faults self.old.sink) (K.faults self.new.sink)) }
    {
        self.flushed = false;
        if self.broken {
            return Err(self.fail());
        }
        if self.hold(bytes) {
            return Ok(bytes.len());
        }
        if self.send().is_err() {
            return Err(Failed);
        }
        if self.hold(bytes) {
            return Ok(bytes.len());
        }
        self.pass(bytes)
    }

    fn flush(&mut self) -> Result<(), Failed>
        ensures bytes { Keeps (append_known (K.taken self.old.sink) self.old.held.items) (append_known (K.taken self.new.sink) self.new.held.items) }
        ensures cause { HasCause (as_count self.old.faults) (as_count self.new.faults) result }
        ensures flushed { OnOk result (IsTrue self.new.flushed) }
        ensures unflushed { OnErr result (IsFalse self.new.flushed) }
        ensures handed_on { OnOk result (self.new.held.items ≡ []) }
        ensures below { OnOk result (IsTrue (K.flushed self.new.sink)) }
        ensures stops { OnErr result (IsTrue self.new.broken) }
        ensures goes_on { OnOk result (IsFalse self.new.broken) }
        ensures stopped { IsTrue self.old.broken → IsErr result }
        ensures spared { IsTrue self.old.broken → self.new.sink ≡ self.old.sink }
        ensures calm_below { OnOk result (K.faults self.new.sink ≡ K.faults self.old.sink) }
        ensures failed_below { OnErr result (IsFalse self.old.broken → Rose (K.faults self.old.sink) (K.faults self.new.sink)) }
    {
        if self.broken {
            return Err(self.fail());
        }
        if self.send().is_err() {
            return Err(Failed);
        }
        match self.sink.flush() {
            Ok(()) => {
                self.flushed = true;
                Ok(())
            }
            Err(_) => Err(self.fail()),
        }
    }
}

// Writes until all is written or a write fails, and answers how many bytes were written.
fn send_prefix<K: Sink>(sink: &mut K, bytes: &[u8]) -> (usize, Result<(), Failed>)
    ensures all { OnOk result.1 (result.0 ≡ length bytes.now) }
    ensures bytes { Appends (K.taken sink.old) (K.taken sink.new) (take result.0 bytes.now) }
    ensures bound { result.0 ≤ length bytes.now }
    ensures calm { OnOk result.1 (K.faults sink.new ≡ K.faults sink.old) }
    ensures failed { OnErr result.1 (Rose (K.faults sink.old) (K.faults sink.new)) }
{
    let mut count = 0;
    while count < bytes.len() {
        match sink.write(&bytes[count..]) {
            Ok(more) => count += more,
            Err(failed) => return (count, Err(failed)),
        }
    }
    (count, Ok(()))
}

// Takes the first `count` bytes out.
fn remove_prefix(held: &mut Vec<u8>, count: usize)
    requires { count ≤ length held.old.items }
    ensures { held.new.items ≡ drop count held.old.items }
{
    let len = held.len();
    held.as_mut_slice().copy_within(count..len, 0);
    held.truncate(len - count);
}
