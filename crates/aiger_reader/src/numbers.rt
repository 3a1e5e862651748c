//! The numbers of a line.

ghost use Rattle.std.specs.Prelude.{◌≡◌, ◌≤◌, ◌<◌, ℕ, List, Some, take, length, IfSome, IfNone, slice_index};
ghost use Rattle.aiger_reader.specs.Numbers.{numbers_of, one_of, one_or_two_of, two_or_three_of, three_of};
ghost use Rattle.aiger_reader.specs.Headers.{header_with};

use crate::headers::{Header, Spelling};
use word_scan::{decimal, next_word};

const MOST: usize = 9;

/// At most nine numbers.
#[derive(Drop)]
pub(crate) struct Numbers {
    pub(crate) items: [u32; MOST],
    pub(crate) count: usize,
}

/// The numbers of a line of at most nine decimals.
pub(crate) fn read_numbers(line: &[u8]) -> Option<Numbers>
    ensures few { IfSome result (λ numbers. numbers.count ≤ 9) }
    ensures found { IfSome result (λ numbers. numbers_of line.now ≡ Some (take numbers.count numbers.items)) }
    ensures none { IfNone result ((found : List ℕ) → numbers_of line.now ≡ Some found → 9 < length found) }
{
    let mut items = [0; MOST];
    let mut count = 0;
    let mut rest = line;
    while let Some((word, after)) = next_word(rest) {
        if count == MOST {
            return None;
        }
        items[count] = decimal(word)?;
        count += 1;
        rest = after;
    }
    Some(Numbers { items, count })
}

impl Numbers {
    ghost use Rattle.std.specs.Prelude.{◌≡◌, ◌≤◌, take, slice_index};
    ghost use Rattle.aiger_reader.specs.Headers.{header_with};

    /// The number at this place, or 0 where there is none.
    fn at(&self, place: usize) -> u32
        requires { self.now.count ≤ 9 }
        ensures { result ≡ slice_index (take self.now.count self.now.items) place }
    {
        if place < self.count {
            self.items[place]
        } else {
            0
        }
    }

    /// The counts in the order of a header.
    pub(crate) fn header(&self, spelling: Spelling) -> Header
        requires { self.now.count ≤ 9 }
        ensures { result ≡ header_with spelling (take self.now.count self.now.items) }
    {
        Header {
            spelling,
            variables: self.at(0),
            inputs: self.at(1),
            latches: self.at(2),
            outputs: self.at(3),
            ands: self.at(4),
            bad: self.at(5),
            constraints: self.at(6),
            justice: self.at(7),
            fairness: self.at(8),
        }
    }

    /// The numbers.
    pub(crate) fn as_slice(&self) -> &[u32]
        requires { self.now.count ≤ 9 }
        ensures { result.now ≡ take self.now.count self.now.items }
    {
        &self.items[..self.count]
    }
}

/// The number of a line of just one.
#[tactic(auto, using(crate::proofs::Forms::not_one))]
pub(crate) fn one_number(line: &[u8]) -> Option<u32>
    ensures { result ≡ one_of (numbers_of line.now) }
{
    let numbers = read_numbers(line)?;
    match numbers.as_slice() {
        [number] => Some(*number),
        _ => None,
    }
}

/// The number of a line, and a second one or 0.
#[tactic(auto, using(crate::proofs::Forms::not_one_or_two))]
pub(crate) fn one_or_two_numbers(line: &[u8]) -> Option<(u32, u32)>
    ensures { result ≡ one_or_two_of (numbers_of line.now) }
{
    let numbers = read_numbers(line)?;
    match numbers.as_slice() {
        [first] => Some((*first, 0)),
        [first, second] => Some((*first, *second)),
        _ => None,
    }
}

/// The two numbers of a line, and a third one or 0.
#[tactic(auto, using(crate::proofs::Forms::not_two_or_three))]
pub(crate) fn two_or_three_numbers(line: &[u8]) -> Option<(u32, u32, u32)>
    ensures { result ≡ two_or_three_of (numbers_of line.now) }
{
    let numbers = read_numbers(line)?;
    match numbers.as_slice() {
        [first, second] => Some((*first, *second, 0)),
        [first, second, third] => Some((*first, *second, *third)),
        _ => None,
    }
}

/// The numbers of a line of just three.
#[tactic(auto, using(crate::proofs::Forms::not_three))]
pub(crate) fn three_numbers(line: &[u8]) -> Option<(u32, u32, u32)>
    ensures { result ≡ three_of (numbers_of line.now) }
{
    let numbers = read_numbers(line)?;
    match numbers.as_slice() {
        [first, second, third] => Some((*first, *second, *third)),
        _ => None,
    }
}
