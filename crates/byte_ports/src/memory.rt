//! Ports over bytes in memory, whose calls fail as a list of numbers says.

ghost use Rattle.std.specs.Prelude.{◌≡◌, ◌+◌, ◌-◌, ◌^◌, ◌<◌, ◌≤◌, ◌++◌, IfOk, IsErr, IsFalse, IsOk, IsTrue, Ok, OnErr, OnOk, Some, drop, length, min, take, true, []};
ghost use Rattle.std.specs.Io.{ReadsAtMost, WritesAtMost};
ghost use Rattle.std.specs.Io.KnownBytes.{Keeps, ReadConsumes, WriteAppends};
ghost use Rattle.std.proofs.Math.Nat.{min-le_right};
ghost use Rattle.byte_ports.specs.Causes.{HasCause, as_count};
ghost use Rattle.byte_ports.specs.Scripts.{SinkScript, SourceScript, call_fails, count_given, flush_fails, new_sink, new_source, read_fails, sink_after_failed_flush, sink_after_failure, sink_after_flush, sink_after_write, source_after_failure, source_after_read, write_fails};

use crate::{Failed, Sink, Source};
use std::alloc::Global;
use std::marker::Model;

/// A source over bytes in memory.
#[derive(Debug, Drop)]
pub struct MemorySource {
    bytes: Vec<u8>,
    at: usize,
    step: usize,
    failing: Vec<u64>,
    calls: u64,
    faults: u64,
}

impl Model for MemorySource {
    ghost Value = { SourceScript };

    ghost view = { λ s. record {
      left = drop s.at s.bytes.items;
      step = s.step;
      failing = s.failing.items;
      calls = s.calls;
      faults = s.faults;
    } };

    ghost invariant = { λ s. (s.at ≤ length s.bytes.items) × (1 ≤ s.step) };
}

impl MemorySource {
    /// A source that gives these bytes, at most `step` a call, which is at least 1. Its calls are
    /// numbered from 0, up to 2^64 - 1. Exactly those fail whose number stands in `failing` and is
    /// below 2^64 - 1.
    pub fn new(bytes: Vec<u8>, step: usize, failing: Vec<u64>) -> Self
        requires { 1 ≤ step }
        ensures { result ≡ new_source bytes.items step failing.items }
    {
        MemorySource {
            bytes,
            at: 0,
            step,
            failing,
            calls: 0,
            faults: 0,
        }
    }

    /// The bytes that it has left.
    pub fn left(&self) -> &[u8]
        ensures { result.now ≡ self.now.left }
    {
        &self.bytes[self.at..]
    }
}

impl Source for MemorySource {
    ghost left = { λ s. Some s.left };

    ghost faults = { λ s. as_count s.faults };

    ghost limit = { λ s. min-le_right s.faults (2 ^ 64 - 1) };

    fn read(&mut self, into: &mut [u8]) -> Result<usize, Failed>
        ensures bound { ReadsAtMost result into.new }
        ensures bytes { ReadConsumes (Some self.old.left) (Some self.new.left) result into.new }
        ensures cause { HasCause (as_count self.old.faults) (as_count self.new.faults) result }
        ensures fails { IsTrue (read_fails self.old) → IsErr result }
        ensures gives { IsFalse (read_fails self.old) →
            result ≡ Ok (count_given self.old (length into.old)) }
        ensures put { IfOk result (λ count.
            into.new ≡ take count self.old.left ++ drop count into.old) }
        ensures untouched { OnErr result (into.new ≡ into.old) }
        ensures after { IfOk result (λ count. self.new ≡ source_after_read self.old count) }
        ensures after_failure { OnErr result (self.new ≡ source_after_failure self.old) }
    {
        let fails = stands_in(&self.failing, self.calls);
        self.calls = self.calls.saturating_add(1);
        if fails {
            self.faults = self.faults.saturating_add(1);
            return Err(Failed);
        }
        let count = give_prefix(into, &self.bytes, self.at, self.step);
        self.at += count;
        Ok(count)
    }
}

/// A sink that keeps the bytes in memory.
#[derive(Debug, Drop)]
pub struct MemorySink {
    taken: Vec<u8>,
    step: usize,
    failing: Vec<u64>,
    calls: u64,
    failing_flushes: Vec<u64>,
    flushes: u64,
    faults: u64,
    flushed: bool,
}

impl Model for MemorySink {
    ghost Value = { SinkScript };

    ghost view = { λ s. record {
      taken = s.taken.items;
      step = s.step;
      failing = s.failing.items;
      calls = s.calls;
      failing_flushes = s.failing_flushes.items;
      flushes = s.flushes;
      faults = s.faults;
      flushed = s.flushed;
    } };

    ghost invariant = { λ s. 1 ≤ s.step };
}

impl MemorySink {
    /// A sink that takes at most `step` bytes a write, which is at least 1. Its writes are numbered
    /// from 0, up to 2^64 - 1. Those fail whose number stands in `failing` and is below 2^64 - 1,
    /// and those for which no memory is found. A flush never fails.
    pub fn new(alloc: Global, step: usize, failing: Vec<u64>) -> Self
        requires { 1 ≤ step }
        ensures { result ≡ new_sink step failing.items [] }
    {
        Self::with_flush(alloc, step, failing, Vec::new(alloc))
    }

    /// As `new`, but that its flushes are numbered likewise, and those fail whose number stands in
    /// `failing_flushes` and is below 2^64 - 1.
    pub fn with_flush(
        alloc: Global,
        step: usize,
        failing: Vec<u64>,
        failing_flushes: Vec<u64>,
    ) -> Self
        requires { 1 ≤ step }
        ensures { result ≡ new_sink step failing.items failing_flushes.items }
    {
        MemorySink {
            taken: Vec::new(alloc),
            step,
            failing,
            calls: 0,
            failing_flushes,
            flushes: 0,
            faults: 0,
            flushed: false,
        }
    }

    /// The bytes that it has taken.
    pub fn taken(&self) -> &[u8]
        ensures { result.now ≡ self.now.taken }
    {
        &self.taken
    }

    /// Whether its last call was a flush.
    pub fn flushed(&self) -> bool
        ensures { result ≡ self.now.flushed }
    {
        self.flushed
    }
}

impl Sink for MemorySink {
    ghost taken = { λ s. Some s.taken };

    ghost faults = { λ s. as_count s.faults };

    ghost flushed = { λ s. s.flushed };

    ghost limit = { λ s. min-le_right s.faults (2 ^ 64 - 1) };

    fn write(&mut self, bytes: &[u8]) -> Result<usize, Failed>
        ensures bound { WritesAtMost result bytes.now }
        ensures progress { 0 < length bytes.now → IfOk result (λ count. 0 < count) }
        ensures bytes { WriteAppends (Some self.old.taken) (Some self.new.taken) result bytes.now }
        ensures cause { HasCause (as_count self.old.faults) (as_count self.new.faults) result }
        ensures unflushed { IsFalse self.new.flushed }
        ensures fails { IsTrue (write_fails self.old) → IsErr result }
        ensures count { IfOk result (λ count. count ≡ min self.old.step (length bytes.now)) }
        ensures after { IfOk result (λ count.
            self.new ≡ sink_after_write self.old (take count bytes.now)) }
        ensures after_failure { OnErr result (self.new ≡ sink_after_failure self.old) }
    {
        let fails = stands_in(&self.failing, self.calls);
        let count = self.step.min(bytes.len());
        self.calls = self.calls.saturating_add(1);
        self.flushed = false;
        if fails || self.taken.extend_from_slice(&bytes[..count]).is_err() {
            self.faults = self.faults.saturating_add(1);
            return Err(Failed);
        }
        Ok(count)
    }

    fn flush(&mut self) -> Result<(), Failed>
        ensures bytes { Keeps (Some self.old.taken) (Some self.new.taken) }
        ensures cause { HasCause (as_count self.old.faults) (as_count self.new.faults) result }
        ensures flushed { OnOk result (IsTrue self.new.flushed) }
        ensures unflushed { OnErr result (IsFalse self.new.flushed) }
        ensures fails { IsTrue (flush_fails self.old) → IsErr result }
        ensures passes { IsFalse (flush_fails self.old) → IsOk result }
        ensures after { OnOk result (self.new ≡ sink_after_flush self.old) }
        ensures after_failure { OnErr result (self.new ≡ sink_after_failed_flush self.old) }
    {
        let fails = stands_in(&self.failing_flushes, self.flushes);
        self.flushes = self.flushes.saturating_add(1);
        self.flushed = !fails;
        if fails {
            self.faults = self.faults.saturating_add(1);
            return Err(Failed);
        }
        Ok(())
    }
}

// Whether the call of this number fails.
fn stands_in(failing: &[u64], call: u64) -> bool
    ensures { result ≡ call_fails failing.now call }
{
    call < u64::MAX && failing.contains(&call)
}

// Puts at most `most` of the bytes from `at` on at the start of `into`, and answers how many.
pub(crate) fn give_prefix(into: &mut [u8], bytes: &[u8], at: usize, most: usize) -> usize
    requires { at ≤ length bytes.now }
    ensures count { result ≡ min most (min (length (drop at bytes.now)) (length into.old)) }
    ensures put { into.new ≡ take result (drop at bytes.now) ++ drop result into.old }
    ensures consumed { drop at bytes.now ≡ take result into.new ++ drop (at + result) bytes.now }
    ensures end { 0 < most → 0 < length into.new → result ≡ 0 → drop (at + result) bytes.now ≡ [] }
{
    copy_prefix(into, &bytes[at..], most)
}

// Copies as many bytes as both have, but at most `most`, and answers how many.
fn copy_prefix(into: &mut [u8], from: &[u8], most: usize) -> usize
    ensures count { result ≡ min most (min (length from.now) (length into.old)) }
    ensures copied { into.new ≡ take result from.now ++ drop result into.old }
    ensures prefix { take result into.new ≡ take result from.now }
{
    let count = most.min(from.len().min(into.len()));
    into[..count].copy_from_slice(&from[..count]);
    count
}
