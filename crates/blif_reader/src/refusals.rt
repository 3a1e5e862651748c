//! Why a source is refused.

ghost use Rattle.std.specs.Prelude.{◌≡◌, true, IfOk, OnErr};
ghost use Rattle.blif_reader.specs.Sources.{fault_at, refusal_at};
ghost use Rattle.blif_reader.specs.Refusing.{has_name, is_named};

use pulse_ids::{Name, NoMemory, Quantity};
use source_machine::Place;
use std::alloc::{AllocError, AllocFailed};

/// What is wrong with a source.
#[derive(Debug, Drop)]
pub enum BlifCause {
    /// A byte or a word that can't stand there.
    BadWord,
    /// The first line with words begins no model.
    NoModel,
    /// A second model begins.
    SecondModel,
    /// A line comes after `.end`.
    AfterEnd,
    /// A line begins with this word, which is outside the profile.
    Unsupported(Name),
    /// A row hasn't a mark for each column and a bit.
    RowShape,
    /// A row of an equation ends in another bit than those before it.
    MixedCover,
    /// A row stands behind no equation.
    StrayRow,
    /// A latch is no edge-triggered one.
    LatchType,
    /// Latches or clock lines differ in type, control or clock.
    MixedClock,
    /// The latch with this output has no first state.
    NoFixedInit(Name),
    /// The clock of this name is read as data.
    ClockAsData(Name),
    /// The clock of this name is driven in the model, or is no input.
    DerivedClock(Name),
    /// The net is driven more than once.
    DoubleDriver(Name),
    /// The net is used and driven by nothing.
    Undriven(Name),
    /// The net stands on or behind a cycle of equations.
    Cycle(Name),
}

/// What is wrong with a source, and where.
#[derive(Debug, Drop)]
pub struct BlifFault {
    /// The first line of the logical line, or the source as a whole.
    pub place: Place,
    /// What is wrong.
    pub cause: BlifCause,
}

/// Why a source is refused.
#[derive(Debug, Drop)]
pub enum BlifRefusal {
    /// Something is wrong with it.
    Fault(BlifFault),
    /// It has too much of something.
    Limit(Quantity),
    /// Memory was refused.
    NoMemory,
}

/// Why a logical line is refused, wherever it stands.
#[derive(Debug, Drop)]
pub enum LineRefusal {
    Cause(BlifCause),
    Limit(Quantity),
    NoMemory,
}

/// A fault at a place.
pub(crate) fn fault_at(place: Place, cause: BlifCause) -> BlifRefusal
    ensures { result ≡ fault_at place cause }
{
    BlifRefusal::Fault(BlifFault { place, cause })
}

impl LineRefusal {
    /// The refusal of the source, for that of the logical line that begins at this line.
    pub(crate) fn at(self, line: u32) -> BlifRefusal
        ensures { result ≡ refusal_at line self }
    {
        match self {
            LineRefusal::Cause(cause) => fault_at(Place::Line(line), cause),
            LineRefusal::Limit(quantity) => BlifRefusal::Limit(quantity),
            LineRefusal::NoMemory => BlifRefusal::NoMemory,
        }
    }
}

impl BlifCause {
    /// The same cause.
    fn copied(&self) -> Result<BlifCause, NoMemory>
        ensures ok { IfOk result (λ cause. cause ≡ self.now) }
        ensures err { OnErr result (has_name self.now ≡ true) }
    {
        Ok(match self {
            BlifCause::BadWord => BlifCause::BadWord,
            BlifCause::NoModel => BlifCause::NoModel,
            BlifCause::SecondModel => BlifCause::SecondModel,
            BlifCause::AfterEnd => BlifCause::AfterEnd,
            BlifCause::Unsupported(word) => BlifCause::Unsupported(word.clone()?),
            BlifCause::RowShape => BlifCause::RowShape,
            BlifCause::MixedCover => BlifCause::MixedCover,
            BlifCause::StrayRow => BlifCause::StrayRow,
            BlifCause::LatchType => BlifCause::LatchType,
            BlifCause::MixedClock => BlifCause::MixedClock,
            BlifCause::NoFixedInit(name) => BlifCause::NoFixedInit(name.clone()?),
            BlifCause::ClockAsData(name) => BlifCause::ClockAsData(name.clone()?),
            BlifCause::DerivedClock(name) => BlifCause::DerivedClock(name.clone()?),
            BlifCause::DoubleDriver(name) => BlifCause::DoubleDriver(name.clone()?),
            BlifCause::Undriven(name) => BlifCause::Undriven(name.clone()?),
            BlifCause::Cycle(name) => BlifCause::Cycle(name.clone()?),
        })
    }
}

impl BlifRefusal {
    /// The same refusal.
    pub(crate) fn copied(&self) -> Result<BlifRefusal, NoMemory>
        ensures ok { IfOk result (λ refusal. refusal ≡ self.now) }
        ensures err { OnErr result (is_named self.now ≡ true) }
    {
        match self {
            BlifRefusal::Fault(fault) => {
                let cause = fault.cause.copied()?;
                Ok(fault_at(fault.place, cause))
            }
            BlifRefusal::Limit(quantity) => Ok(BlifRefusal::Limit(*quantity)),
            BlifRefusal::NoMemory => Ok(BlifRefusal::NoMemory),
        }
    }
}

impl From<NoMemory> for LineRefusal {
    ghost use Rattle.std.specs.Prelude.{◌≡◌};
    ghost use Rattle.blif_reader.specs.declared.refusals.LineRefusal.TheVariants as refusals;

    ghost from_gives = { λ _ result. result ≡ refusals.NoMemory };

    fn from(_: NoMemory) -> LineRefusal {
        LineRefusal::NoMemory
    }
}

impl<T: Drop> From<AllocFailed<T>> for LineRefusal {
    ghost use Rattle.std.specs.Prelude.{◌≡◌};
    ghost use Rattle.blif_reader.specs.declared.refusals.LineRefusal.TheVariants as refusals;

    ghost from_gives = { λ _ result. result ≡ refusals.NoMemory };

    fn from(_: AllocFailed<T>) -> LineRefusal {
        LineRefusal::NoMemory
    }
}

impl From<NoMemory> for BlifRefusal {
    ghost use Rattle.std.specs.Prelude.{◌≡◌};
    ghost use Rattle.blif_reader.specs.declared.refusals.BlifRefusal.TheVariants as refusals;

    ghost from_gives = { λ _ result. result ≡ refusals.NoMemory };

    fn from(_: NoMemory) -> BlifRefusal {
        BlifRefusal::NoMemory
    }
}

impl From<AllocError> for BlifRefusal {
    ghost use Rattle.std.specs.Prelude.{◌≡◌};
    ghost use Rattle.blif_reader.specs.declared.refusals.BlifRefusal.TheVariants as refusals;

    ghost from_gives = { λ _ result. result ≡ refusals.NoMemory };

    fn from(_: AllocError) -> BlifRefusal {
        BlifRefusal::NoMemory
    }
}
