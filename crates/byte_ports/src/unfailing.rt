//! Ports that never fail: a source over bytes in memory, and a sink that only counts.

ghost use Rattle.std.specs.Prelude.{◌≡◌, ◌+◌, ◌-◌, ◌^◌, ◌<◌, ◌≤◌, ℕ, ◌++◌, IfOk, IsFalse, IsOk, IsTrue, List, None, Ok, OnErr, OnOk, Some, drop, false, length, min, take};
ghost use Rattle.std.specs.Io.{ReadsAtMost, WritesAtMost};
ghost use Rattle.std.specs.Io.KnownBytes.{Keeps, ReadConsumes, WriteAppends};
ghost use Rattle.std.proofs.Common.{zero-le};
ghost use Rattle.byte_ports.specs.Causes.{HasCause};
ghost use Rattle.byte_ports.specs.Scripts.{CountScript};

use crate::memory::give_prefix;
use crate::{Failed, Sink, Source};
use std::marker::Model;

/// A source over bytes in memory that never fails.
#[derive(Debug, Drop)]
pub struct PlainSource {
    bytes: Vec<u8>,
    at: usize,
}

impl Model for PlainSource {
    ghost Value = { List ℕ };

    ghost view = { λ s. drop s.at s.bytes.items };

    ghost invariant = { λ s. s.at ≤ length s.bytes.items };
}

impl PlainSource {
    /// A source that gives these bytes, as many a call as there is room for.
    pub fn new(bytes: Vec<u8>) -> Self
        ensures { result ≡ bytes.items }
    {
        PlainSource { bytes, at: 0 }
    }
}

impl Source for PlainSource {
    ghost left = { λ s. Some s };

    ghost faults = { λ s. 0 };

    ghost limit = { λ s. zero-le };

    fn read(&mut self, into: &mut [u8]) -> Result<usize, Failed>
        ensures bound { ReadsAtMost result into.new }
        ensures bytes { ReadConsumes (Some self.old) (Some self.new) result into.new }
        ensures cause { HasCause 0 0 result }
        ensures gives { result ≡ Ok (min (length self.old) (length into.old)) }
        ensures put { IfOk result (λ count. into.new ≡ take count self.old ++ drop count into.old) }
        ensures after { IfOk result (λ count. self.new ≡ drop count self.old) }
    {
        let count = give_prefix(into, &self.bytes, self.at, usize::MAX);
        self.at += count;
        Ok(count)
    }
}

/// A sink that counts the bytes and keeps none of them. It never fails and takes no memory.
#[derive(Debug, Drop)]
pub struct CountSink {
    total: u64,
    flushed: bool,
}

impl Model for CountSink {
    ghost Value = { CountScript };

    ghost view = { λ s. record { total = s.total; flushed = s.flushed } };
}

impl CountSink {
    /// A sink that has taken nothing.
    pub fn new() -> Self
        ensures { result ≡ record { total = 0; flushed = false } }
    {
        CountSink {
            total: 0,
            flushed: false,
        }
    }

    /// The number of bytes that it has taken, which stops at 2^64 - 1.
    pub fn total(&self) -> u64
        ensures { result ≡ self.now.total }
    {
        self.total
    }
}

impl Sink for CountSink {
    ghost taken = { λ s. None };

    ghost faults = { λ s. 0 };

    ghost flushed = { λ s. s.flushed };

    ghost limit = { λ s. zero-le };

    fn write(&mut self, bytes: &[u8]) -> Result<usize, Failed>
        ensures bound { WritesAtMost result bytes.now }
        ensures progress { 0 < length bytes.now → IfOk result (λ count. 0 < count) }
        ensures bytes { WriteAppends None None result bytes.now }
        ensures cause { HasCause 0 0 result }
        ensures unflushed { IsFalse self.new.flushed }
        ensures whole { result ≡ Ok (length bytes.now) }
        ensures total { self.new.total ≡ min (self.old.total + length bytes.now) (2 ^ 64 - 1) }
    {
        self.total = self.total.saturating_add(bytes.len() as u64);
        self.flushed = false;
        Ok(bytes.len())
    }

    fn flush(&mut self) -> Result<(), Failed>
        ensures bytes { Keeps None None }
        ensures cause { HasCause 0 0 result }
        ensures flushed { OnOk result (IsTrue self.new.flushed) }
        ensures unflushed { OnErr result (IsFalse self.new.flushed) }
        ensures never_fails { IsOk result }
        ensures total { self.new.total ≡ self.old.total }
    {
        self.flushed = true;
        Ok(())
    }
}
