//! Why a source is refused.

ghost use Rattle.std.specs.Prelude.{◌≡◌};
ghost use Rattle.aiger_reader.specs.Sources.{fault_at, refusal_of};
ghost use Rattle.aiger_reader.specs.Readings.{answer_of};

use pulse_ids::{Name, NoMemory, Quantity};
use source_machine::Place;
use std::alloc::{AllocError, AllocFailed};

/// What is wrong with a source.
#[derive(Debug, Drop)]
pub enum AigerCause {
    /// The first line is no header of the profile.
    BadHeader,
    /// The header counts properties of this letter: `b`, `c`, `j` or `f`.
    Property(u8),
    /// A line hasn't the form of its section.
    BadLine,
    /// A literal that is no left side where one stands, or is above the greatest variable's.
    OutOfRange(u32),
    /// The latch of this number, from 0, is reset to itself, and no choice gives it a first bit.
    NoFixedInit(u32),
    /// A delta that is too long or leads below its literal.
    BadDelta,
    /// A symbol of a position that isn't there.
    SymbolRange,
    /// The source ends before the sections that the header counts.
    Truncated,
    /// The variable is driven more than once.
    DoubleDriver(Name),
    /// The variable is used and driven by nothing.
    Undriven(Name),
    /// The variable stands on or behind a cycle of conjunctions.
    Cycle(Name),
}

/// What is wrong with a source, and where.
#[derive(Debug, Drop)]
pub struct AigerFault {
    /// The line, the byte, or the source as a whole.
    pub place: Place,
    /// What is wrong.
    pub cause: AigerCause,
}

/// Why a source is refused.
#[derive(Debug, Drop)]
pub enum AigerRefusal {
    /// Something is wrong with it.
    Fault(AigerFault),
    /// It has too much of something.
    Limit(Quantity),
    /// Memory was refused.
    NoMemory,
}

/// Why a unit is refused, wherever it stands.
#[derive(Clone, Copy, Debug, PartialEq, Eq)]
pub enum UnitRefusal {
    BadHeader,
    Property(u8),
    BadLine,
    OutOfRange(u32),
    NoFixedInit(u32),
    BadDelta,
    SymbolRange,
    Limit(Quantity),
}

/// The first refusal that whole units show, and the place of its unit.
#[derive(Clone, Copy, Debug, PartialEq, Eq)]
pub struct Shown {
    pub(crate) place: Place,
    pub(crate) refusal: UnitRefusal,
}

/// Why a unit isn't taken: it is refused, or memory was.
#[derive(Clone, Copy, Debug, PartialEq, Eq)]
pub enum Refused {
    Unit(UnitRefusal),
    NoMemory,
}

/// Why reading stops.
#[derive(Clone, Copy, Debug, PartialEq, Eq)]
pub enum Stop {
    Unit(Shown),
    TooLong,
    NoMemory,
}

/// A fault at a place.
pub(crate) fn fault_at(place: Place, cause: AigerCause) -> AigerRefusal
    ensures { result ≡ fault_at place cause }
{
    AigerRefusal::Fault(AigerFault { place, cause })
}

impl Shown {
    /// The refusal of the source.
    fn refusal(self) -> AigerRefusal
        ensures { result ≡ refusal_of self }
    {
        let cause = match self.refusal {
            UnitRefusal::BadHeader => AigerCause::BadHeader,
            UnitRefusal::Property(letter) => AigerCause::Property(letter),
            UnitRefusal::BadLine => AigerCause::BadLine,
            UnitRefusal::OutOfRange(literal) => AigerCause::OutOfRange(literal),
            UnitRefusal::NoFixedInit(latch) => AigerCause::NoFixedInit(latch),
            UnitRefusal::BadDelta => AigerCause::BadDelta,
            UnitRefusal::SymbolRange => AigerCause::SymbolRange,
            UnitRefusal::Limit(quantity) => return AigerRefusal::Limit(quantity),
        };
        AigerRefusal::Fault(AigerFault {
            place: self.place,
            cause,
        })
    }
}

impl Stop {
    /// The answer of a reader that stopped.
    pub(crate) fn refusal(self) -> AigerRefusal
        ensures { result ≡ answer_of self }
    {
        match self {
            Stop::Unit(shown) => shown.refusal(),
            Stop::TooLong => AigerRefusal::Limit(Quantity::SourceBytes),
            Stop::NoMemory => AigerRefusal::NoMemory,
        }
    }
}

impl From<UnitRefusal> for Refused {
    ghost use Rattle.std.specs.Prelude.{◌≡◌};
    ghost use Rattle.aiger_reader.specs.declared.refusals.Refused.TheVariants as refused;

    ghost from_gives = { λ refusal result. result ≡ refused.Unit refusal };

    fn from(refusal: UnitRefusal) -> Refused {
        Refused::Unit(refusal)
    }
}

impl From<NoMemory> for Refused {
    ghost use Rattle.std.specs.Prelude.{◌≡◌};
    ghost use Rattle.aiger_reader.specs.declared.refusals.Refused.TheVariants as refused;

    ghost from_gives = { λ _ result. result ≡ refused.NoMemory };

    fn from(_: NoMemory) -> Refused {
        Refused::NoMemory
    }
}

impl<T: Drop> From<AllocFailed<T>> for Refused {
    ghost use Rattle.std.specs.Prelude.{◌≡◌};
    ghost use Rattle.aiger_reader.specs.declared.refusals.Refused.TheVariants as refused;

    ghost from_gives = { λ _ result. result ≡ refused.NoMemory };

    fn from(_: AllocFailed<T>) -> Refused {
        Refused::NoMemory
    }
}

impl From<NoMemory> for Stop {
    ghost use Rattle.std.specs.Prelude.{◌≡◌};
    ghost use Rattle.aiger_reader.specs.declared.refusals.Stop.TheVariants as stops;

    ghost from_gives = { λ _ result. result ≡ stops.NoMemory };

    fn from(_: NoMemory) -> Stop {
        Stop::NoMemory
    }
}

impl From<AllocError> for Stop {
    ghost use Rattle.std.specs.Prelude.{◌≡◌};
    ghost use Rattle.aiger_reader.specs.declared.refusals.Stop.TheVariants as stops;

    ghost from_gives = { λ _ result. result ≡ stops.NoMemory };

    fn from(_: AllocError) -> Stop {
        Stop::NoMemory
    }
}
