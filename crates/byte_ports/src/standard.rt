//! Ports over the readers and writers of std. Over a file, a pipe or a terminal they tell no bytes.

ghost use Rattle.std.specs.Prelude.{◌≡◌, ◌-◌, ◌^◌, ◌<◌, IfOk, IsErr, IsFalse, IsOk, IsTrue, Ok, OnErr, OnOk, false, length};
ghost use Rattle.std.specs.Io.{ReadsAtMost, WritesAtMost};
ghost use Rattle.std.specs.Io.KnownBytes.{Keeps, ReadConsumes, WriteAppends};
ghost use Rattle.std.proofs.Math.Nat.{min-le_right};
ghost use Rattle.byte_ports.specs.Causes.{HasCause, as_count, one_more};

use crate::{Failed, Sink, Source};
use std::io;
use std::io::{Read, Write};

/// A source over a reader of std. It tells the bytes that the reader tells.
#[derive(Drop)]
pub struct StdSource<R> {
    reader: R,
    faults: u64,
}

impl<R: Read> StdSource<R> {
    /// A source with no fault. Each error of the reader is one fault, up to 2^64 - 1.
    pub fn new(reader: R) -> Self
        ensures left { ⟦<StdSource<R> as Source>⟧.left result ≡ R.remaining reader }
        ensures faults { ⟦<StdSource<R> as Source>⟧.faults result ≡ 0 }
    {
        StdSource { reader, faults: 0 }
    }

    // What a read answers, from what the reader answered: its count, or `Failed` and one fault more.
    fn after_read(&mut self, answer: io::Result<usize>) -> Result<usize, Failed>
        ensures reader { self.new.reader ≡ self.old.reader }
        ensures passed { IfOk answer (λ count. result ≡ Ok count) }
        ensures calm { OnOk answer (self.new.faults ≡ self.old.faults) }
        ensures failed { OnErr answer (IsErr result) }
        ensures counted { OnErr answer (self.new.faults ≡ one_more self.old.faults) }
    {
        match answer {
            Ok(count) => Ok(count),
            Err(_) => {
                self.faults = self.faults.saturating_add(1);
                Err(Failed)
            }
        }
    }
}

impl<R: Read> Source for StdSource<R> {
    ghost left = { λ s. R.remaining s.reader };

    ghost faults = { λ s. as_count s.faults };

    ghost limit = { λ s. min-le_right s.faults (2 ^ 64 - 1) };

    fn read(&mut self, into: &mut [u8]) -> Result<usize, Failed>
        ensures bound { ReadsAtMost result into.new }
        ensures bytes { ReadConsumes (R.remaining self.old.reader) (R.remaining self.new.reader) result into.new }
        ensures cause { HasCause (as_count self.old.faults) (as_count self.new.faults) result }
        ensures counted { OnErr result (self.new.faults ≡ one_more self.old.faults) }
    {
        let answer = self.reader.read(into);
        self.after_read(answer)
    }
}

/// A sink over a writer of std. It tells the bytes that the writer tells.
#[derive(Drop)]
pub struct StdSink<W> {
    writer: W,
    faults: u64,
    flushed: bool,
}

impl<W: Write> StdSink<W> {
    /// A sink with no fault that isn't flushed. Each error of the writer is one fault, up to
    /// 2^64 - 1, and so is each write that takes nothing of a piece that isn't empty.
    pub fn new(writer: W) -> Self
        ensures taken { ⟦<StdSink<W> as Sink>⟧.taken result ≡ W.contents writer }
        ensures faults { ⟦<StdSink<W> as Sink>⟧.faults result ≡ 0 }
        ensures flushed { ⟦<StdSink<W> as Sink>⟧.flushed result ≡ false }
    {
        StdSink {
            writer,
            faults: 0,
            flushed: false,
        }
    }

    // What a write of a piece that isn't empty answers, from what the writer answered: its count, where
    // it took something; otherwise `Failed` and one fault more.
    fn after_write(&mut self, answer: io::Result<usize>) -> Result<usize, Failed>
        ensures writer { self.new.writer ≡ self.old.writer }
        ensures unflushed { IsFalse self.new.flushed }
        ensures passed { IfOk answer (λ count. 0 < count → result ≡ Ok count) }
        ensures calm { IfOk answer (λ count. 0 < count → self.new.faults ≡ self.old.faults) }
        ensures stuck { IfOk answer (λ count. count ≡ 0 → IsErr result) }
        ensures stuck_counted { IfOk answer (λ count. count ≡ 0 → self.new.faults ≡ one_more self.old.faults) }
        ensures failed { OnErr answer (IsErr result) }
        ensures counted { OnErr answer (self.new.faults ≡ one_more self.old.faults) }
    {
        self.flushed = false;
        match answer {
            Ok(count) if 0 < count => Ok(count),
            _ => {
                self.faults = self.faults.saturating_add(1);
                Err(Failed)
            }
        }
    }

    // What a flush answers, from what the writer answered: the same, with one fault more where it failed.
    fn after_flush(&mut self, answer: io::Result<()>) -> Result<(), Failed>
        ensures writer { self.new.writer ≡ self.old.writer }
        ensures passed { OnOk answer (IsOk result) }
        ensures flushed { OnOk answer (IsTrue self.new.flushed) }
        ensures calm { OnOk answer (self.new.faults ≡ self.old.faults) }
        ensures failed { OnErr answer (IsErr result) }
        ensures unflushed { OnErr answer (IsFalse self.new.flushed) }
        ensures counted { OnErr answer (self.new.faults ≡ one_more self.old.faults) }
    {
        self.flushed = answer.is_ok();
        match answer {
            Ok(()) => Ok(()),
            Err(_) => {
                self.faults = self.faults.saturating_add(1);
                Err(Failed)
            }
        }
    }
}

impl<W: Write> Sink for StdSink<W> {
    ghost taken = { λ s. W.contents s.writer };

    ghost faults = { λ s. as_count s.faults };

    ghost flushed = { λ s. s.flushed };

    ghost limit = { λ s. min-le_right s.faults (2 ^ 64 - 1) };

    /// As every sink. Of an empty piece it answers 0, and doesn't call the writer.
    fn write(&mut self, bytes: &[u8]) -> Result<usize, Failed>
        ensures bound { WritesAtMost result bytes.now }
        ensures progress { 0 < length bytes.now → IfOk result (λ count. 0 < count) }
        ensures bytes { WriteAppends (W.contents self.old.writer) (W.contents self.new.writer) result bytes.now }
        ensures cause { HasCause (as_count self.old.faults) (as_count self.new.faults) result }
        ensures unflushed { IsFalse self.new.flushed }
        ensures counted { OnErr result (self.new.faults ≡ one_more self.old.faults) }
        ensures empty { length bytes.now ≡ 0 → result ≡ Ok 0 }
        ensures uncalled { length bytes.now ≡ 0 → self.new ≡ record self.old { flushed = false } }
    {
        if bytes.is_empty() {
            self.flushed = false;
            return Ok(0);
        }
        let answer = self.writer.write(bytes);
        self.after_write(answer)
    }

    fn flush(&mut self) -> Result<(), Failed>
        ensures bytes { Keeps (W.contents self.old.writer) (W.contents self.new.writer) }
        ensures cause { HasCause (as_count self.old.faults) (as_count self.new.faults) result }
        ensures flushed { OnOk result (IsTrue self.new.flushed) }
        ensures unflushed { OnErr result (IsFalse self.new.flushed) }
        ensures counted { OnErr result (self.new.faults ≡ one_more self.old.faults) }
    {
        let answer = self.writer.flush();
        self.after_flush(answer)
    }
}
