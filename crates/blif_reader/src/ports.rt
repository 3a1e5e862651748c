//! Lines that name nets: inputs, outputs and equations.

use crate::open_equations::OpenEquation;
use crate::refusals::LineRefusal;
use crate::states::{State, net, short, within};
use pulse_ids::{Lit, Name, NetId, NoMemory, Quantity};
use std::alloc::Global;
use word_scan::next_dark_word;

impl State {
    ghost use Rattle.std.specs.Prelude.{◌≡◌, ◌<◌, ◌^◌, Some, Ok, OnOk, IfErr};
    ghost use Rattle.word_scan.specs.Logical.{dark_words};
    ghost use Rattle.word_scan.specs.Reading.{read_on};
    ghost use Rattle.blif_reader.specs.States.{with_column};
    ghost use Rattle.blif_reader.specs.Refusing.{FailsBy};
    ghost use Rattle.blif_reader.specs.Statements.{input_read, output_read, column_read};

    /// Adds a name of an `.inputs` line.
    fn add_input(&mut self, alloc: Global, name: &[u8]) -> Result<(), LineRefusal>
        ensures ok { OnOk result (input_read self.old name.now ≡ Ok self.new) }
        ensures err { IfErr result (λ refusal. FailsBy refusal (input_read self.old name.now)) }
    {
        short(name)?;
        let net = net(&mut self.nets, name)?;
        within(Quantity::Inputs, self.machine.inputs.len() + 1)?;
        let name = Name::new(alloc, name)?;
        self.machine.add_input(net, Some(name))?;
        Ok(())
    }

    /// Adds the names of an `.inputs` line.
    pub(crate) fn add_inputs(&mut self, alloc: Global, words: &[u8]) -> Result<(), LineRefusal>
        ensures ok { OnOk result (read_on input_read (Ok self.old) (dark_words words.now) ≡ Ok self.new) }
        ensures err { IfErr result (λ refusal. FailsBy refusal (read_on input_read (Ok self.old) (dark_words words.now))) }
    {
        let mut rest = words;
        while let Some((word, after)) = next_dark_word(rest) {
            self.add_input(alloc, word)?;
            rest = after;
        }
        Ok(())
    }

    /// Adds a name of an `.outputs` line.
    fn add_output(&mut self, alloc: Global, name: &[u8]) -> Result<(), LineRefusal>
        ensures ok { OnOk result (output_read self.old name.now ≡ Ok self.new) }
        ensures err { IfErr result (λ refusal. FailsBy refusal (output_read self.old name.now)) }
    {
        short(name)?;
        let net = net(&mut self.nets, name)?;
        within(Quantity::Outputs, self.machine.outputs.len() + 1)?;
        let name = Name::new(alloc, name)?;
        self.machine.add_output(Lit::new(net, false), Some(name))?;
        Ok(())
    }

    /// Adds the names of an `.outputs` line.
    pub(crate) fn add_outputs(&mut self, alloc: Global, words: &[u8]) -> Result<(), LineRefusal>
        ensures ok { OnOk result (read_on output_read (Ok self.old) (dark_words words.now) ≡ Ok self.new) }
        ensures err { IfErr result (λ refusal. FailsBy refusal (read_on output_read (Ok self.old) (dark_words words.now))) }
    {
        let mut rest = words;
        while let Some((word, after)) = next_dark_word(rest) {
            self.add_output(alloc, word)?;
            rest = after;
        }
        Ok(())
    }

    /// Gives the open equation a further net, or opens the equation of this one.
    fn open_with(&mut self, alloc: Global, net: NetId) -> Result<(), NoMemory>
        requires { net.number < 2 ^ 31 }
        ensures { OnOk result (self.new ≡ record self.old { unended = Some (with_column self.old.unended net.number) }) }
    {
        match &mut self.unended {
            Some(unended) => unended.add_column(net),
            None => {
                self.unended = Some(OpenEquation::new(alloc, net));
                Ok(())
            }
        }
    }

    /// Adds a name of a `.names` line.
    fn add_column(&mut self, alloc: Global, name: &[u8]) -> Result<(), LineRefusal>
        ensures ok { OnOk result (column_read self.old name.now ≡ Ok self.new) }
        ensures err { IfErr result (λ refusal. FailsBy refusal (column_read self.old name.now)) }
    {
        short(name)?;
        let net = net(&mut self.nets, name)?;
        self.open_with(alloc, net)?;
        Ok(())
    }

    /// Adds the names of a `.names` line.
    pub(crate) fn add_columns(&mut self, alloc: Global, words: &[u8]) -> Result<(), LineRefusal>
        ensures ok { OnOk result (read_on column_read (Ok self.old) (dark_words words.now) ≡ Ok self.new) }
        ensures err { IfErr result (λ refusal. FailsBy refusal (read_on column_read (Ok self.old) (dark_words words.now))) }
    {
        let mut rest = words;
        while let Some((word, after)) = next_dark_word(rest) {
            self.add_column(alloc, word)?;
            rest = after;
        }
        Ok(())
    }
}
