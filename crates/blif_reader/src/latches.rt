//! Latches.

ghost use Rattle.std.specs.Prelude.{◌≡◌, Ok, Err, OnOk, IfOk, IfErr, codes};
ghost use Rattle.blif_reader.specs.declared.refusals.BlifCause.TheVariants as causes;
ghost use Rattle.blif_reader.specs.declared.refusals.LineRefusal.TheVariants as refusals;
ghost use Rattle.blif_reader.specs.Latches.{edge_of, first_state, state_given};
ghost use Rattle.blif_reader.specs.Refusing.{FailsBy};

use crate::refusals::{BlifCause, LineRefusal};
use crate::states::{State, net, short, within};
use pulse_ids::{Lit, Name, Quantity};
use source_machine::{Latch, Unset};
use std::alloc::Global;
use word_scan::next_dark_word;

fn bad_word() -> LineRefusal
    ensures { result ≡ refusals.Cause causes.BadWord }
{
    LineRefusal::Cause(BlifCause::BadWord)
}

/// Whether a latch of this type takes its input at the rising edge.
fn edge_of(kind: &[u8]) -> Result<bool, LineRefusal>
    ensures { result ≡ edge_of kind.now }
{
    if kind == b"ah".as_slice() || (kind == b"al".as_slice() || kind == b"as".as_slice()) {
        return Err(LineRefusal::Cause(BlifCause::LatchType));
    }
    if kind == b"re".as_slice() {
        return Ok(true);
    }
    if kind == b"fe".as_slice() {
        return Ok(false);
    }
    Err(bad_word())
}

/// The first state that an initial value gives.
fn first_state(value: &[u8]) -> Result<Option<bool>, LineRefusal>
    ensures { result ≡ first_state value.now }
{
    if value == b"0".as_slice() {
        return Ok(Some(false));
    }
    if value == b"1".as_slice() {
        return Ok(Some(true));
    }
    if value == b"2".as_slice() || value == b"3".as_slice() {
        return Ok(None);
    }
    Err(bad_word())
}

/// The first state, or the choice for latches that have none.
fn state_given(unset: Unset, init: Option<bool>) -> Option<bool>
    ensures { result ≡ state_given unset init }
{
    init.or(unset.first_bit())
}

impl State {
    ghost use Rattle.std.specs.Prelude.{◌≡◌, Ok, OnOk, IfErr};
    ghost use Rattle.word_scan.specs.Logical.{dark_words};
    ghost use Rattle.blif_reader.specs.Refusing.{FailsBy};
    ghost use Rattle.blif_reader.specs.Latches.{latch_read, untyped_read, typed_read, latch_words_read};

    /// Adds a latch from the net of the first name to that of the second.
    fn add_latch(
        &mut self,
        alloc: Global,
        unset: Unset,
        input: &[u8],
        output: &[u8],
        init: Option<bool>,
    ) -> Result<(), LineRefusal>
        ensures ok { OnOk result (latch_read unset self.old input.now output.now init ≡ Ok self.new) }
        ensures err { IfErr result (λ refusal. FailsBy refusal (latch_read unset self.old input.now output.now init)) }
    {
        let next = net(&mut self.nets, input)?;
        let out = net(&mut self.nets, output)?;
        within(Quantity::Latches, self.machine.latches.len() + 1)?;
        let Some(init) = state_given(unset, init) else {
            let name = Name::new(alloc, output)?;
            return Err(LineRefusal::Cause(BlifCause::NoFixedInit(name)));
        };
        self.machine.add_latch(Latch {
            out,
            init,
            next: Lit::new(next, false),
        })?;
        Ok(())
    }

    /// Adds a latch without type and control.
    fn add_untyped(
        &mut self,
        alloc: Global,
        unset: Unset,
        input: &[u8],
        output: &[u8],
        value: &[u8],
    ) -> Result<(), LineRefusal>
        ensures ok { OnOk result (untyped_read unset self.old input.now output.now value.now ≡ Ok self.new) }
        ensures err { IfErr result (λ refusal. FailsBy refusal (untyped_read unset self.old input.now output.now value.now)) }
    {
        let init = first_state(value)?;
        short(input)?;
        short(output)?;
        self.add_latch(alloc, unset, input, output, init)
    }

    /// Adds a latch with type and control.
    fn add_typed(
        &mut self,
        alloc: Global,
        unset: Unset,
        input: &[u8],
        output: &[u8],
        kind: &[u8],
        control: &[u8],
        value: &[u8],
    ) -> Result<(), LineRefusal>
        ensures ok { OnOk result (typed_read unset self.old input.now output.now kind.now control.now value.now ≡ Ok self.new) }
        ensures err { IfErr result (λ refusal. FailsBy refusal (typed_read unset self.old input.now output.now kind.now control.now value.now)) }
    {
        let rises = edge_of(kind)?;
        let init = first_state(value)?;
        if self.is_mixed(rises, control) {
            return Err(LineRefusal::Cause(BlifCause::MixedClock));
        }
        short(input)?;
        short(output)?;
        short(control)?;
        self.keep_type(alloc, rises, control)?;
        self.add_latch(alloc, unset, input, output, init)
    }

    /// Reads what stands after `.latch`.
    pub(crate) fn read_latch(
        &mut self,
        alloc: Global,
        unset: Unset,
        words: &[u8],
    ) -> Result<(), LineRefusal>
        ensures ok { OnOk result (latch_words_read unset self.old (dark_words words.now) ≡ Ok self.new) }
        ensures err { IfErr result (λ refusal. FailsBy refusal (latch_words_read unset self.old (dark_words words.now))) }
    {
        let Some((input, rest)) = next_dark_word(words) else {
            return Err(bad_word());
        };
        let Some((output, rest)) = next_dark_word(rest) else {
            return Err(bad_word());
        };
        let Some((third, rest)) = next_dark_word(rest) else {
            return self.add_untyped(alloc, unset, input, output, b"3".as_slice());
        };
        let Some((control, rest)) = next_dark_word(rest) else {
            return self.add_untyped(alloc, unset, input, output, third);
        };
        let Some((value, rest)) = next_dark_word(rest) else {
            return self.add_typed(alloc, unset, input, output, third, control, b"3".as_slice());
        };
        if next_dark_word(rest).is_some() {
            return Err(bad_word());
        }
        self.add_typed(alloc, unset, input, output, third, control, value)
    }
}
