//! The lines of a text that comes in pieces.

ghost use Rattle.std.specs.Prelude.{◌≡◌, ◌≤◌, ◌<◌, ◌+◌, ◌^◌, ◌-◌, false, ◌++◌, [], ℕ, List, take, length, position, IfOk, OnErr, OnOk, IfSome, IfNone, IsTrue, ◌↔◌, ◌&&◌, ◌==◌, ◌≢◌};
ghost use Rattle.word_scan.specs.Lines.{PlainLines, unless_whole, begun, next_number, TakesPart, TakesWhole, IsAt, HasNoFeed, whole_part};

use pulse_ids::NoMemory;
use std::alloc::Global;
use std::marker::Model;

const LF: u8 = 10;

/// What was taken of a piece, and whether it completes a line.
#[derive(Clone, Copy, Debug, PartialEq, Eq)]
pub struct Taken {
    /// How many bytes were taken.
    pub used: usize,
    /// Whether the present line is whole now.
    pub whole: bool,
}

/// The present line of a text that comes in pieces. A line ends at LF.
#[derive(Debug, Drop)]
pub struct Lines {
    line: Vec<u8>,
    whole: bool,
    number: u32,
}

impl Model for Lines {
    ghost use Rattle.word_scan.specs.Lines.{PlainLines};

    ghost Value = { PlainLines };

    ghost view = { λ lines. record { line = lines.line.items; whole = lines.whole; number = lines.number } };

    ghost use Rattle.word_scan.specs.Lines.{HasNoFeed};

    ghost invariant = { λ lines. HasNoFeed lines.line.items };
}

fn line_feed(bytes: &[u8]) -> Option<usize>
    ensures { result ≡ position (λ b. b == 10) bytes.now }
{
    bytes.iter().position(|b| *b == LF)
}

/// The bytes before the first LF, where there is one.
fn first_line(piece: &[u8]) -> Option<&[u8]>
    ensures part { IfSome result (λ line. TakesPart [] piece.now (whole_part line.now) line.now) }
    ensures plain { IfSome result (λ line. HasNoFeed line.now) }
    ensures none { IfNone result (position (λ b. b == 10) piece.now ≡ None) }
{
    let end = line_feed(piece)?;
    Some(&piece[..end])
}

/// Puts bytes behind a line, or in place of one that is whole.
fn put(line: &mut Vec<u8>, whole: bool, part: &[u8]) -> Result<(), NoMemory>
    ensures ok { OnOk result (line.new.items ≡ unless_whole whole line.old.items ++ part.now) }
    ensures err { OnErr result (line.new.items ≡ line.old.items) }
{
    line.reserve(part.len())?;
    if whole {
        line.clear();
    }
    line.extend_from_slice(part)?;
    Ok(())
}

/// Puts the bytes up to the first LF behind a line, or in place of one that is whole, and answers what it took.
fn take_part(line: &mut Vec<u8>, whole: bool, piece: &[u8]) -> Result<Taken, NoMemory>
    requires { HasNoFeed line.old.items }
    ensures plain { OnOk result (HasNoFeed line.new.items) }
    ensures taken { IfOk result (λ taken. TakesPart (unless_whole whole line.old.items) piece.now taken line.new.items) }
    ensures err { OnErr result (line.new.items ≡ line.old.items) }
{
    match line_feed(piece) {
        Some(end) => {
            put(line, whole, &piece[..end])?;
            Ok(Taken {
                used: end + 1,
                whole: true,
            })
        }
        None => {
            put(line, whole, piece)?;
            Ok(Taken {
                used: piece.len(),
                whole: false,
            })
        }
    }
}

impl Lines {
    /// Before the first byte. It takes no memory.
    pub fn new(alloc: Global) -> Lines
        ensures { result ≡ record { line = []; whole = false; number = 1 } }
    {
        Lines {
            line: Vec::new(alloc),
            whole: false,
            number: 1,
        }
    }

    /// Whether nothing of the next line came yet.
    fn is_between(&self) -> bool
        ensures { IsTrue result ↔ (begun self.now ≡ []) }
    {
        self.whole || self.line.is_empty()
    }

    /// The number of the line that the next byte goes on.
    fn next_number(&self) -> u32
        requires { next_number self.now ≤ 2 ^ 31 }
        ensures { result ≡ next_number self.now }
    {
        if self.whole {
            self.number + 1
        } else {
            self.number
        }
    }

    /// Begins the next line after a whole one.
    fn begin(&mut self)
        requires { next_number self.old ≤ 2 ^ 31 }
        ensures { self.new ≡ record { line = begun self.old; whole = false; number = next_number self.old } }
    {
        if self.whole {
            self.line.clear();
            self.whole = false;
            self.number += 1;
        }
    }

    /// Takes the bytes up to and with the first LF of the piece, or all of them where it has none.
    /// After a whole line it begins the next one. Fewer than 2^31 lines were whole before, as where
    /// fewer than 2^31 bytes were taken in all. Want of memory changes nothing.
    pub fn take(&mut self, piece: &[u8]) -> Result<Taken, NoMemory>
        requires { next_number self.old ≤ 2 ^ 31 }
        ensures part { IfOk result (λ taken. TakesPart (begun self.old) piece.now taken self.new.line) }
        ensures whole { IfOk result (λ taken. self.new.whole ≡ taken.whole) }
        ensures number { IfOk result (λ _. self.new.number ≡ next_number self.old) }
        ensures at { IfOk result (λ taken. (text : List ℕ) → IsAt text self.old → IsAt (text ++ take taken.used piece.now) self.new) }
        ensures err { OnErr result (self.new ≡ self.old) }
    {
        let number = self.next_number();
        let taken = take_part(&mut self.line, self.whole, piece)?;
        self.number = number;
        self.whole = taken.whole;
        Ok(taken)
    }

    /// The first line of the piece, without its LF, where nothing of it came before and its LF stands
    /// in the piece. It is read where it lies: nothing is copied and no memory is taken. The bytes
    /// taken are the line and its LF, and the next line is then the present one. Otherwise the answer
    /// is None and nothing changes. Fewer than 2^31 lines were whole before.
    pub fn take_whole<'a>(&mut self, piece: &'a [u8]) -> Option<&'a [u8]>
        requires { next_number self.old ≤ 2 ^ 31 }
        ensures whole { IfSome result (λ line. TakesWhole self.old piece.now line.now self.new) }
        ensures at { IfSome result (λ line. (text : List ℕ) → IsAt text self.old → IsAt (text ++ take (length line.now + 1) piece.now) self.new) }
        ensures none { IfNone result (self.new ≡ self.old) }
        ensures cut { IfNone result (begun self.old ≡ [] → position (λ b. b == 10) piece.now ≡ None) }
    {
        if !self.is_between() {
            return None;
        }
        let line = first_line(piece)?;
        self.begin();
        self.number += 1;
        Some(line)
    }

    /// The present line, without its LF.
    pub fn line(&self) -> &[u8]
        ensures line { result.now ≡ self.now.line }
        ensures plain { HasNoFeed self.now.line }
    {
        self.line.as_slice()
    }

    /// Its number, from 1.
    pub fn number(&self) -> u32
        ensures { result ≡ self.now.number }
    {
        self.number
    }

    /// Whether the present line isn't whole and isn't empty.
    pub fn rest(&self) -> bool
        ensures { IsTrue result ↔ ((self.now.whole ≡ false) × (self.now.line ≢ [])) }
    {
        !self.whole && !self.line.is_empty()
    }
}
