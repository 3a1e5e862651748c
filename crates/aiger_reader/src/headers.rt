//! The first line of a source.

ghost use Rattle.std.specs.Prelude.{◌≡◌, ◌<◌, Some, None, IfOk, IfErr};
ghost use Rattle.std.specs.Str.{bytes_eq};
ghost use Rattle.word_scan.specs.Words.{words_of};
ghost use Rattle.aiger_reader.specs.Headers.{spelling_of, format_word, over, property, unequal, over_limits, properties, counts_refusal, header_of_words, header_in, header_refusal};

use crate::numbers::read_numbers;
use crate::refusals::UnitRefusal;
use crate::units::line_of;
use pulse_ids::Quantity;
use word_scan::next_word;

/// The spelling of a source.
#[derive(Clone, Copy, Debug, PartialEq, Eq)]
pub enum Spelling {
    /// Each conjunction is a line.
    Ascii,
    /// Inputs have no lines, and each conjunction is two deltas.
    Binary,
}

/// The spelling and the counts of a header.
#[derive(Clone, Copy, Debug, PartialEq, Eq)]
pub struct Header {
    pub(crate) spelling: Spelling,
    pub(crate) variables: u32,
    pub(crate) inputs: u32,
    pub(crate) latches: u32,
    pub(crate) outputs: u32,
    pub(crate) ands: u32,
    pub(crate) bad: u32,
    pub(crate) constraints: u32,
    pub(crate) justice: u32,
    pub(crate) fairness: u32,
}

/// The spelling of the source that begins with this unit.
pub(crate) fn spelling_of(unit: &[u8]) -> Spelling
    ensures { result ≡ spelling_of unit.now }
{
    if unit.len() >= 4 && &unit[..4] == b"aig ".as_slice() {
        Spelling::Binary
    } else {
        Spelling::Ascii
    }
}

fn has_format(spelling: Spelling, word: &[u8]) -> bool
    ensures { result ≡ bytes_eq word.now (format_word spelling) }
{
    match spelling {
        Spelling::Ascii => word == b"aag".as_slice(),
        Spelling::Binary => word == b"aig".as_slice(),
    }
}

pub(crate) fn over(quantity: Quantity, count: u64) -> Option<UnitRefusal>
    ensures { result ≡ over quantity count }
{
    if count > quantity.greatest() {
        Some(UnitRefusal::Limit(quantity))
    } else {
        None
    }
}

fn property(letter: u8, count: u32) -> Option<UnitRefusal>
    ensures { result ≡ property letter count }
{
    if count > 0 {
        Some(UnitRefusal::Property(letter))
    } else {
        None
    }
}

impl Header {
    ghost use Rattle.std.specs.Prelude.{◌≡◌, ◌+◌};
    ghost use Rattle.aiger_reader.specs.Headers.{has_sum, unequal, over_limits, properties, counts_refusal};

    fn has_sum(self) -> bool
        ensures { result ≡ has_sum self.spelling self.variables (self.inputs + self.latches + self.ands) }
    {
        let variables = self.variables as u64;
        let sum = self.inputs as u64 + self.latches as u64 + self.ands as u64;
        match self.spelling {
            Spelling::Ascii => sum <= variables,
            Spelling::Binary => variables == sum,
        }
    }

    fn unequal(self) -> Option<UnitRefusal>
        ensures { result ≡ unequal self }
    {
        if self.has_sum() {
            None
        } else {
            Some(UnitRefusal::BadHeader)
        }
    }

    fn over_limits(self) -> Option<UnitRefusal>
        ensures { result ≡ over_limits self }
    {
        over(Quantity::Nets, self.variables as u64).or(over(
            Quantity::Inputs,
            self.inputs as u64,
        ).or(over(Quantity::Latches, self.latches as u64).or(over(
            Quantity::Outputs,
            self.outputs as u64,
        ).or(over(Quantity::Size, 3 * self.ands as u64)))))
    }

    fn properties(self) -> Option<UnitRefusal>
        ensures { result ≡ properties self }
    {
        property(b'b', self.bad).or(property(b'c', self.constraints).or(property(
            b'j',
            self.justice,
        ).or(property(b'f', self.fairness))))
    }

    fn refusal(self) -> Option<UnitRefusal>
        ensures { result ≡ counts_refusal self }
    {
        self.unequal().or(self.over_limits().or(self.properties()))
    }
}

/// The header of a line that has the form of one.
fn header_of(spelling: Spelling, line: &[u8]) -> Option<Header>
    ensures { result ≡ header_of_words spelling (words_of line.now) }
{
    let (word, rest) = next_word(line)?;
    if !has_format(spelling, word) {
        return None;
    }
    let numbers = read_numbers(rest)?;
    if numbers.count < 5 {
        return None;
    }
    Some(numbers.header(spelling))
}

/// The header of the first unit, or why it is refused.
pub(crate) fn read_header(unit: &[u8]) -> Result<Header, UnitRefusal>
    ensures ok { IfOk result (λ header. (header_in unit.now ≡ Some header) × (counts_refusal header ≡ None)) }
    ensures err { IfErr result (λ refusal. header_refusal (header_in unit.now) ≡ Some refusal) }
{
    let Some(header) = header_of(spelling_of(unit), line_of(unit)) else {
        return Err(UnitRefusal::BadHeader);
    };
    match header.refusal() {
        Some(refusal) => Err(refusal),
        None => Ok(header),
    }
}
