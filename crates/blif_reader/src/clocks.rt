//! The clock, and the type and control of latches.

ghost use Rattle.std.specs.Prelude.{◌≡◌, Ok, OnOk, IfOk, IfErr};
ghost use Rattle.blif_reader.specs.Latches.{differs_in_type, differs_in_clock, names_clock};

use crate::latch_kinds::LatchKind;
use crate::refusals::{BlifCause, LineRefusal};
use crate::states::{State, short};
use pulse_ids::{Name, NoMemory};
use std::alloc::Global;
use word_scan::next_dark_word;

/// Whether a control names the clock.
fn names_clock(control: &[u8]) -> bool
    ensures { result ≡ names_clock control.now }
{
    control != b"NIL".as_slice()
}

fn differs_in_type(typed: &Option<LatchKind>, rises: bool, control: &[u8]) -> bool
    ensures { result ≡ differs_in_type typed.now rises control.now }
{
    match typed {
        None => false,
        Some(typed) => typed.rises != rises || typed.control.bytes() != control,
    }
}

fn differs_in_clock(clock: &Option<Name>, name: &[u8]) -> bool
    ensures { result ≡ differs_in_clock clock.now name.now }
{
    match clock {
        None => false,
        Some(clock) => clock.bytes() != name,
    }
}

impl State {
    ghost use Rattle.std.specs.Prelude.{◌≡◌, Some, Ok, OnOk, IfErr};
    ghost use Rattle.std.specs.Option.{option_or};
    ghost use Rattle.word_scan.specs.Logical.{dark_words};
    ghost use Rattle.word_scan.specs.Reading.{read_on};
    ghost use Rattle.blif_reader.specs.Refusing.{FailsBy};
    ghost use Rattle.blif_reader.specs.Latches.{is_mixed, with_type, clock_read};

    /// Whether a latch of this type and control differs from those before it in type, control or clock.
    pub(crate) fn is_mixed(&self, rises: bool, control: &[u8]) -> bool
        ensures { result ≡ is_mixed self.now rises control.now }
    {
        differs_in_type(&self.typed, rises, control)
            || (names_clock(control) && differs_in_clock(&self.clock, control))
    }

    /// Keeps this name as the clock's, where none is.
    fn keep_clock(&mut self, alloc: Global, name: &[u8]) -> Result<(), NoMemory>
        ensures { OnOk result (self.new ≡ record self.old { clock = option_or self.old.clock (Some name.now) }) }
    {
        if self.clock.is_none() {
            self.clock = Some(Name::new(alloc, name)?);
        }
        Ok(())
    }

    /// Keeps this type and control as those of the first typed latch, where none came.
    fn keep_typed(&mut self, alloc: Global, rises: bool, control: &[u8]) -> Result<(), NoMemory>
        ensures { OnOk result (self.new ≡ record self.old { typed = option_or self.old.typed (Some (record { rises = rises; control = control.now })) }) }
    {
        if self.typed.is_none() {
            let control = Name::new(alloc, control)?;
            self.typed = Some(LatchKind { rises, control });
        }
        Ok(())
    }

    /// Keeps the type, the control and the clock of a latch, where they are the first.
    pub(crate) fn keep_type(
        &mut self,
        alloc: Global,
        rises: bool,
        control: &[u8],
    ) -> Result<(), NoMemory>
        ensures { OnOk result (self.new ≡ with_type self.old rises control.now) }
    {
        self.keep_typed(alloc, rises, control)?;
        if names_clock(control) {
            return self.keep_clock(alloc, control);
        }
        Ok(())
    }

    /// Adds a name of a `.clock` line.
    fn add_clock(&mut self, alloc: Global, name: &[u8]) -> Result<(), LineRefusal>
        ensures ok { OnOk result (clock_read self.old name.now ≡ Ok self.new) }
        ensures err { IfErr result (λ refusal. FailsBy refusal (clock_read self.old name.now)) }
    {
        short(name)?;
        if differs_in_clock(&self.clock, name) {
            return Err(LineRefusal::Cause(BlifCause::MixedClock));
        }
        self.keep_clock(alloc, name)?;
        self.clocked = true;
        Ok(())
    }

    /// Adds the names of a `.clock` line.
    pub(crate) fn add_clocks(&mut self, alloc: Global, words: &[u8]) -> Result<(), LineRefusal>
        ensures ok { OnOk result (read_on clock_read (Ok self.old) (dark_words words.now) ≡ Ok self.new) }
        ensures err { IfErr result (λ refusal. FailsBy refusal (read_on clock_read (Ok self.old) (dark_words words.now))) }
    {
        let mut rest = words;
        while let Some((word, after)) = next_dark_word(rest) {
            self.add_clock(alloc, word)?;
            rest = after;
        }
        Ok(())
    }
}
