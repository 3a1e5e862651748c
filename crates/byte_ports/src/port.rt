//! What a source and a sink are to the code above them.

ghost use Rattle.std.specs.Prelude.{◌-◌, ◌^◌, ◌<◌, ◌≤◌, ℕ, Bool, IfOk, IsFalse, IsTrue, List, OnErr, OnOk, length};
ghost use Rattle.std.specs.Io.{ReadsAtMost, WritesAtMost};
ghost use Rattle.std.specs.Io.KnownBytes.{Keeps, ReadConsumes, WriteAppends};
ghost use Rattle.std.specs.declared.option.Option.{Option};
ghost use Rattle.byte_ports.specs.Causes.{HasCause};

use thiserror::Error;

/// A port failed at a call. It tells no cause: the port's count of faults rose.
#[derive(Clone, Copy, Debug, PartialEq, Eq, Error)]
#[error("the port failed")]
pub struct Failed;

/// Where bytes come from.
pub trait Source {
    /// The bytes that it has left, where it tells them. One that told them goes on telling them.
    ghost left: { Self → Option (List ℕ) };

    /// How often it has failed, up to 2^64 - 1.
    ghost faults: { Self → ℕ };

    /// Puts the next bytes at the start of `into`, and answers how many. `Ok(0)` for a slice that
    /// isn't empty comes only where nothing is left.
    ///
    /// Errors: `Failed` only where the count of faults rose. Then no byte was taken.
    fn read(&mut self, into: &mut [u8]) -> Result<usize, Failed>
        ensures bound { ReadsAtMost result into.new }
        ensures bytes { ReadConsumes (left self.old) (left self.new) result into.new }
        ensures cause { HasCause (faults self.old) (faults self.new) result };

    /// The count stops at 2^64 - 1.
    ghost limit: { (source : Self) → faults source ≤ 2 ^ 64 - 1 };
}

/// Where bytes go to.
pub trait Sink {
    /// The bytes that it has taken, where it tells them. One that told them goes on telling them.
    ghost taken: { Self → Option (List ℕ) };

    /// How often it has failed, up to 2^64 - 1.
    ghost faults: { Self → ℕ };

    /// Whether its last call was a flush that succeeded.
    ghost flushed: { Self → Bool };

    /// Takes a prefix of `bytes` and answers its length, which is at least 1 unless `bytes` is
    /// empty. After it the sink isn't flushed.
    ///
    /// Errors: `Failed` only where the count of faults rose. Then no byte was taken.
    fn write(&mut self, bytes: &[u8]) -> Result<usize, Failed>
        ensures bound { WritesAtMost result bytes.now }
        ensures progress { 0 < length bytes.now → IfOk result (λ count. 0 < count) }
        ensures bytes { WriteAppends (taken self.old) (taken self.new) result bytes.now }
        ensures cause { HasCause (faults self.old) (faults self.new) result }
        ensures unflushed { IsFalse (flushed self.new) };

    /// Brings what was taken to where it goes. It takes no bytes.
    ///
    /// Errors: `Failed` only where the count of faults rose. Then the sink isn't flushed.
    fn flush(&mut self) -> Result<(), Failed>
        ensures bytes { Keeps (taken self.old) (taken self.new) }
        ensures cause { HasCause (faults self.old) (faults self.new) result }
        ensures flushed { OnOk result (IsTrue (flushed self.new)) }
        ensures unflushed { OnErr result (IsFalse (flushed self.new)) };

    /// The count stops at 2^64 - 1.
    ghost limit: { (sink : Self) → faults sink ≤ 2 ^ 64 - 1 };
}
