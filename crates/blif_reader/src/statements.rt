//! Lines whose first word begins with a dot, and rows.

ghost use Rattle.std.specs.Prelude.{◌≡◌};
ghost use Rattle.blif_reader.specs.Statements.{is_timing, is_load, is_passed_over};

use crate::refusals::{BlifCause, LineRefusal};
use crate::rows::{bit_of, cares_in, row_words};
use crate::states::{State, short, within};
use pulse_ids::{Name, Quantity};
use source_machine::Unset;
use std::alloc::Global;
use word_scan::next_dark_word;

/// Whether it begins a line of area, delay, wires, arrival or required times.
fn is_timing(word: &[u8]) -> bool
    ensures { result ≡ is_timing word.now }
{
    if word == b".area".as_slice() {
        return true;
    }
    if word == b".delay".as_slice() {
        return true;
    }
    if word == b".wire_load_slope".as_slice() {
        return true;
    }
    if word == b".wire".as_slice() {
        return true;
    }
    if word == b".input_arrival".as_slice() {
        return true;
    }
    if word == b".default_input_arrival".as_slice() {
        return true;
    }
    if word == b".output_required".as_slice() {
        return true;
    }
    if word == b".default_output_required".as_slice() {
        return true;
    }
    false
}

/// Whether it begins a line of drive or load.
fn is_load(word: &[u8]) -> bool
    ensures { result ≡ is_load word.now }
{
    if word == b".input_drive".as_slice() {
        return true;
    }
    if word == b".default_input_drive".as_slice() {
        return true;
    }
    if word == b".output_load".as_slice() {
        return true;
    }
    if word == b".default_output_load".as_slice() {
        return true;
    }
    if word == b".max_input_load".as_slice() {
        return true;
    }
    if word == b".default_max_input_load".as_slice() {
        return true;
    }
    false
}

/// Whether a line with this first word is passed over.
fn is_passed_over(word: &[u8]) -> bool
    ensures { result ≡ is_passed_over word.now }
{
    is_timing(word) || is_load(word)
}

impl State {
    ghost use Rattle.std.specs.Prelude.{◌≡◌, Ok, OnOk, IfErr, IfSome, true, length};
    ghost use Rattle.word_scan.specs.Logical.{dark_words};
    ghost use Rattle.blif_reader.specs.Refusing.{FailsBy};
    ghost use Rattle.blif_reader.specs.Statements.{model_read, names_read, end_read, statement_read, row_read, marks_added};
    ghost use Rattle.blif_reader.specs.Rows.{are_marks};

    /// Begins the model.
    fn begin_model(&mut self, words: &[u8]) -> Result<(), LineRefusal>
        ensures ok { OnOk result (model_read self.old (dark_words words.now) ≡ Ok self.new) }
        ensures err { IfErr result (λ refusal. FailsBy refusal (model_read self.old (dark_words words.now))) }
    {
        if self.modelled {
            return Err(LineRefusal::Cause(BlifCause::SecondModel));
        }
        if let Some((name, rest)) = next_dark_word(words) {
            if next_dark_word(rest).is_some() {
                return Err(LineRefusal::Cause(BlifCause::BadWord));
            }
            short(name)?;
        }
        self.modelled = true;
        Ok(())
    }

    /// Reads what stands after `.names`.
    fn read_names(&mut self, alloc: Global, words: &[u8]) -> Result<(), LineRefusal>
        ensures ok { OnOk result (names_read self.old (dark_words words.now) ≡ Ok self.new) }
        ensures err { IfErr result (λ refusal. FailsBy refusal (names_read self.old (dark_words words.now))) }
    {
        if next_dark_word(words).is_none() {
            return Err(LineRefusal::Cause(BlifCause::BadWord));
        }
        self.add_columns(alloc, words)
    }

    /// Ends the model.
    fn end_model(&mut self, words: &[u8]) -> Result<(), LineRefusal>
        ensures ok { OnOk result (end_read self.old (dark_words words.now) ≡ Ok self.new) }
        ensures err { IfErr result (λ refusal. FailsBy refusal (end_read self.old (dark_words words.now))) }
    {
        if next_dark_word(words).is_some() {
            return Err(LineRefusal::Cause(BlifCause::BadWord));
        }
        self.ended = true;
        Ok(())
    }

    /// Reads a line whose first word begins with a dot.
    pub(crate) fn read_statement(
        &mut self,
        alloc: Global,
        unset: Unset,
        first: &[u8],
        words: &[u8],
    ) -> Result<(), LineRefusal>
        ensures ok { OnOk result (statement_read unset self.old first.now (dark_words words.now) ≡ Ok self.new) }
        ensures err { IfErr result (λ refusal. FailsBy refusal (statement_read unset self.old first.now (dark_words words.now))) }
    {
        if first == b".model".as_slice() {
            return self.begin_model(words);
        }
        if first == b".inputs".as_slice() {
            return self.add_inputs(alloc, words);
        }
        if first == b".outputs".as_slice() {
            return self.add_outputs(alloc, words);
        }
        if first == b".clock".as_slice() {
            return self.add_clocks(alloc, words);
        }
        if first == b".names".as_slice() {
            return self.read_names(alloc, words);
        }
        if first == b".latch".as_slice() {
            return self.read_latch(alloc, unset, words);
        }
        if first == b".end".as_slice() {
            return self.end_model(words);
        }
        if is_passed_over(first) {
            return Ok(());
        }
        let word = Name::new(alloc, first)?;
        Err(LineRefusal::Cause(BlifCause::Unsupported(word)))
    }

    /// Adds a row with these marks and this bit to the open equation.
    fn add_bit(&mut self, alloc: Global, marks: &[u8], bit: bool) -> Result<(), LineRefusal>
        requires { IfSome self.old.unended (λ unended. are_marks (length unended.columns) marks.now ≡ true) }
        ensures ok { OnOk result (marks_added self.old self.old.unended marks.now bit ≡ Ok self.new) }
        ensures err { IfErr result (λ refusal. FailsBy refusal (marks_added self.old self.old.unended marks.now bit)) }
    {
        let cares = cares_in(marks);
        let size = self.size + (1 + cares);
        let Some(unended) = &mut self.unended else {
            return Err(LineRefusal::Cause(BlifCause::StrayRow));
        };
        if unended.differs(bit) {
            return Err(LineRefusal::Cause(BlifCause::MixedCover));
        }
        within(Quantity::Size, size)?;
        unended.add_row(alloc, marks, bit)?;
        self.size = size;
        Ok(())
    }

    /// Reads a line whose first word begins with no dot.
    pub(crate) fn read_row(&mut self, alloc: Global, text: &[u8]) -> Result<(), LineRefusal>
        ensures ok { OnOk result (row_read self.old (dark_words text.now) ≡ Ok self.new) }
        ensures err { IfErr result (λ refusal. FailsBy refusal (row_read self.old (dark_words text.now))) }
    {
        let Some(unended) = &self.unended else {
            return Err(LineRefusal::Cause(BlifCause::StrayRow));
        };
        let Some((marks, word)) = row_words(unended.is_constant(), text) else {
            return Err(LineRefusal::Cause(BlifCause::RowShape));
        };
        if !unended.fits(marks) {
            return Err(LineRefusal::Cause(BlifCause::RowShape));
        }
        let Some(bit) = bit_of(word) else {
            return Err(LineRefusal::Cause(BlifCause::RowShape));
        };
        self.add_bit(alloc, marks, bit)
    }
}
