//! Logical lines.

ghost use Rattle.std.specs.Prelude.{◌≡◌, ◌==◌, slice_index};

use crate::refusals::{BlifCause, LineRefusal};
use crate::states::{State, short};
use source_machine::Unset;
use std::alloc::Global;
use word_scan::{has_strange, next_dark_word};

fn begins_with_dot(word: &[u8]) -> bool
    ensures { result ≡ (slice_index word.now 0 == 46) }
{
    !word.is_empty() && word[0] == b'.'
}

impl State {
    ghost use Rattle.std.specs.Prelude.{◌≡◌, ◌∷◌, ◌==◌, Ok, OnOk, IfErr, slice_index, not, ◌&&◌};
    ghost use Rattle.word_scan.specs.Logical.{dark_words};
    ghost use Rattle.blif_reader.specs.Refusing.{FailsBy};
    ghost use Rattle.blif_reader.specs.Statements.{text_line_read};

    /// Reads a logical line.
    pub(crate) fn read(
        &mut self,
        alloc: Global,
        unset: Unset,
        text: &[u8],
    ) -> Result<(), LineRefusal>
        ensures ok { OnOk result (text_line_read unset self.old text.now ≡ Ok self.new) }
        ensures err { IfErr result (λ refusal. FailsBy refusal (text_line_read unset self.old text.now)) }
    {
        let Some((first, words)) = next_dark_word(text) else {
            return Ok(());
        };
        if has_strange(text) {
            return Err(LineRefusal::Cause(BlifCause::BadWord));
        }
        let begins = first == b".model".as_slice();
        if !self.modelled && !begins {
            return Err(LineRefusal::Cause(BlifCause::NoModel));
        }
        if self.ended {
            return Err(LineRefusal::Cause(if begins {
                BlifCause::SecondModel
            } else {
                BlifCause::AfterEnd
            }));
        }
        if !begins_with_dot(first) {
            return self.read_row(alloc, text);
        }
        short(first)?;
        self.close()?;
        self.read_statement(alloc, unset, first, words)
    }
}
