//! The rows of an equation.

ghost use Rattle.std.specs.Prelude.{◌≡◌, ◌≤◌, ◌<◌, ◌^◌, ◌+◌, ◌++◌, ℕ, List, IfOk, IfSome, IfNone, Some, None, OnOk, length, map, true, if◌then◌else◌};
ghost use Rattle.std.specs.List.{All, list_all};
ghost use Rattle.source_machine.specs.Machines.{literal_of, PlainLiteral};
ghost use Rattle.word_scan.specs.Logical.{dark_words};
ghost use Rattle.blif_reader.specs.Rows.{is_mark, is_care, are_marks, cares_in, marked, literals_of, bit_of, row_words};

use pulse_ids::{Lit, NetId, NoMemory};
use source_machine::Cover;
use std::alloc::Global;
use word_scan::next_dark_word;

fn is_mark(byte: u8) -> bool
    ensures { result ≡ is_mark byte }
{
    byte == b'0' || byte == b'1' || byte == b'-'
}

/// How many literals a mark gives.
fn cares(byte: u8) -> usize
    ensures { result ≡ (if is_care byte then 1 else 0) }
{
    if byte == b'0' || byte == b'1' {
        return 1;
    }
    0
}

fn are_all_marks(marks: &[u8]) -> bool
    ensures { result ≡ list_all (λ b. is_mark b) marks.now }
{
    marks.iter().all(|b| is_mark(*b))
}

/// Whether there is a mark for each of so many columns.
pub(crate) fn are_marks(columns: usize, marks: &[u8]) -> bool
    ensures { result ≡ are_marks columns marks.now }
{
    columns == marks.len() && are_all_marks(marks)
}

/// How many marks give literals.
pub(crate) fn cares_in(marks: &[u8]) -> usize
    ensures count { result ≡ cares_in marks.now }
    ensures few { cares_in marks.now ≤ length marks.now }
{
    let mut count = 0;
    for mark in marks {
        count += cares(*mark);
    }
    count
}

/// The bit that a word writes.
pub(crate) fn bit_of(word: &[u8]) -> Option<bool>
    ensures { result ≡ bit_of word.now }
{
    if word == b"0".as_slice() {
        return Some(false);
    }
    if word == b"1".as_slice() {
        return Some(true);
    }
    None
}

/// The marks and the bit of a row, of which an equation without columns has no marks.
pub(crate) fn row_words(constant: bool, text: &[u8]) -> Option<(&[u8], &[u8])>
    ensures some { IfSome result (λ said. row_words constant (dark_words text.now) ≡ Some (said.0.now, said.1.now)) }
    ensures none { IfNone result (row_words constant (dark_words text.now) ≡ None) }
{
    let (first, rest) = next_dark_word(text)?;
    let second = next_dark_word(rest);
    if constant {
        return match second {
            Some(_) => None,
            None => Some((&first[..0], first)),
        };
    }
    let (bit, rest) = second?;
    match next_dark_word(rest) {
        Some(_) => None,
        None => Some((first, bit)),
    }
}

/// Adds what a mark gives its column.
fn add_mark(cube: &mut Cover, net: NetId, mark: u8) -> Result<(), NoMemory>
    requires number { net.number < 2 ^ 31 }
    requires few { length cube.old < 2 ^ 31 }
    ensures { OnOk result ((more : List PlainLiteral) → map literal_of cube.old ++ marked net.number mark more ≡ map literal_of cube.new ++ more) }
{
    if mark == b'1' {
        return cube.push(Lit::new(net, false));
    }
    if mark == b'0' {
        return cube.push(Lit::new(net, true));
    }
    Ok(())
}

/// The cube of a row: the literals that its marks give the columns.
pub(crate) fn read_row(alloc: Global, columns: &[NetId], marks: &[u8]) -> Result<Cover, NoMemory>
    requires numbers { All (λ net. net.number < 2 ^ 31) columns.now }
    requires same { length columns.now ≡ length marks.now }
    requires few { cares_in marks.now < 2 ^ 31 }
    ensures { IfOk result (λ cube. map literal_of cube ≡ literals_of (map (λ net. net.number) columns.now) marks.now) }
{
    let mut cube = Cover::new(alloc);
    for place in 0..marks.len() {
        add_mark(&mut cube, columns[place], marks[place])?;
    }
    Ok(cube)
}
