//! The reader of sources, whose kind their first four bytes tell.

ghost use Rattle.std.specs.Prelude.{◌≡◌, ◌≤◌, ◌-◌, ◌++◌, [], ℕ, List, take, length, nat_le};
ghost use Rattle.source_machine.specs.declared.unset.Unset.TheVariants.{Refuse};
ghost use Rattle.aiger_reader.specs.Sources.{early};
ghost use Rattle.aiger_reader.specs.Readings.{Answers, IsReading};
ghost use Rattle.blif_reader.specs.Sources as blif_source;
ghost use Rattle.blif_reader.specs.Readings as blif_reading;
ghost use Rattle.xsfq_cli.specs.Reading.{HasRead, due, unheld, IsBlifAnswer, IsBlifVerdict, JudgesBlif};
ghost use Rattle.xsfq_cli.specs.Sources.{begins_aiger};

use crate::consuming::Consumer;
use aiger_reader::{AigerReader, AigerRefusal};
use blif_reader::{BlifReader, BlifRefusal};
use run_outcomes::Outcome;
use source_machine::Machine;
use std::alloc::Global;
use std::marker::Model;

/// The first bytes of a source, at most four.
#[derive(Debug, Drop)]
pub(crate) struct Head {
    bytes: [u8; 4],
    count: usize,
}

impl Model for Head {
    ghost use Rattle.std.specs.Prelude.{◌≤◌, ℕ, List, take};

    ghost Value = { List ℕ };

    ghost view = { λ head. take head.count head.bytes };

    ghost invariant = { λ head. head.count ≤ 4 };
}

impl Head {
    /// No bytes.
    fn new() -> Head
        ensures { result ≡ [] }
    {
        Head {
            bytes: [0u8; 4],
            count: 0,
        }
    }

    /// The bytes.
    fn bytes(&self) -> &[u8]
        ensures { result.now ≡ self.now }
    {
        &self.bytes[..self.count]
    }

    /// Whether four bytes came.
    fn is_full(&self) -> bool
        ensures { result ≡ nat_le 4 (length self.now) }
    {
        4 <= self.bytes().len()
    }

    /// Takes the bytes of a piece that belong to the first four, and answers how many these are.
    fn take(&mut self, piece: &[u8]) -> usize
        ensures head { self.new ≡ take 4 (self.old ++ piece.now) }
        ensures count { result ≡ length self.new - length self.old }
        ensures bound { result ≤ length piece.now }
    {
        let count = (4 - self.count).min(piece.len());
        self.bytes[self.count..self.count + count].copy_from_slice(&piece[..count]);
        self.count += count;
        count
    }
}

/// A reader of sources. It holds the first four bytes back, for which it takes no memory, and hands a source on to
/// the reader of its kind.
#[derive(Debug, Drop)]
pub(crate) struct SourceReader {
    head: Head,
    aiger: AigerReader,
    blif: BlifReader,
}

impl SourceReader {
    /// Before the first byte.
    pub(crate) fn new(alloc: Global) -> SourceReader
        ensures { HasRead [] result.head result.aiger result.blif }
    {
        SourceReader {
            head: Head::new(),
            aiger: AigerReader::new(alloc),
            blif: BlifReader::new(alloc),
        }
    }

    /// Feeds a piece to AIGER's reader, and before it the four bytes that were held back while there were fewer.
    fn feed_aiger(&mut self, held: usize, piece: &[u8]) -> Result<(), AigerRefusal>
        ensures head { self.new.head ≡ self.old.head }
        ensures blif { self.new.blif ≡ self.old.blif }
        ensures read { (text : List ℕ) → IsReading Refuse text self.old.aiger → IsReading Refuse (text ++ (due held self.old.head ++ piece.now)) self.new.aiger }
        ensures early { (text : List ℕ) → IsReading Refuse text self.old.aiger → Answers result (early Refuse (text ++ (due held self.old.head ++ piece.now))) }
    {
        if held < 4 {
            feed_both(&mut self.aiger, self.head.bytes(), piece)
        } else {
            self.aiger.feed(piece)
        }
    }

    /// The same of BLIF's reader.
    fn feed_blif(&mut self, held: usize, piece: &[u8]) -> Result<(), BlifRefusal>
        ensures head { self.new.head ≡ self.old.head }
        ensures aiger { self.new.aiger ≡ self.old.aiger }
        ensures read { (text : List ℕ) → blif_reading.IsReading Refuse text self.old.blif → blif_reading.IsReading Refuse (text ++ (due held self.old.head ++ piece.now)) self.new.blif }
        ensures early { (text : List ℕ) → blif_reading.IsReading Refuse text self.old.blif → blif_reading.Answers result (blif_source.early Refuse (text ++ (due held self.old.head ++ piece.now))) }
    {
        if held < 4 {
            feed_both_blif(&mut self.blif, self.head.bytes(), piece)
        } else {
            self.blif.feed(piece)
        }
    }
}

/// Whether the first four bytes are those of AIGER.
fn begins_aiger(head: &[u8]) -> bool
    ensures { result ≡ begins_aiger head.now }
{
    head == b"aag ".as_slice() || head == b"aig ".as_slice()
}

/// Feeds two pieces, and answers what they show together.
fn feed_both(aiger: &mut AigerReader, first: &[u8], second: &[u8]) -> Result<(), AigerRefusal>
    ensures read { (text : List ℕ) → IsReading Refuse text aiger.old → IsReading Refuse (text ++ (first.now ++ second.now)) aiger.new }
    ensures early { (text : List ℕ) → IsReading Refuse text aiger.old → Answers result (early Refuse (text ++ (first.now ++ second.now))) }
{
    let _ = aiger.feed(first); // what it shows stays shown
    aiger.feed(second)
}

/// The same of BLIF's reader.
fn feed_both_blif(blif: &mut BlifReader, first: &[u8], second: &[u8]) -> Result<(), BlifRefusal>
    ensures read { (text : List ℕ) → blif_reading.IsReading Refuse text blif.old → blif_reading.IsReading Refuse (text ++ (first.now ++ second.now)) blif.new }
    ensures early { (text : List ℕ) → blif_reading.IsReading Refuse text blif.old → blif_reading.Answers result (blif_source.early Refuse (text ++ (first.now ++ second.now))) }
{
    let _ = blif.feed(first); // what it shows stays shown
    blif.feed(second)
}

/// The verdict of a BLIF source whose last bytes were held back.
#[tactic(auto, using(crate::proofs::BlifReading::held_judged))]
fn finish_held(held: &[u8], blif: BlifReader) -> Result<Machine, BlifRefusal>
    ensures { (text : List ℕ) → blif_reading.IsReading Refuse text blif → JudgesBlif (text ++ held.now) result }
{
    let mut blif = blif;
    let _ = blif.feed(held); // what it shows is the verdict
    blif.finish()
}

/// The verdict of a BLIF source, of which the reader has no byte where there are fewer than four.
fn finish_blif(head: &Head, blif: BlifReader) -> Result<Machine, BlifRefusal>
    ensures { (text : List ℕ) → blif_reading.IsReading Refuse (unheld text) blif → take 4 text ≡ head.now → JudgesBlif text result }
{
    if !head.is_full() {
        return finish_held(head.bytes(), blif);
    }
    blif.finish()
}

/// The outcome of what BLIF's reader answers.
fn blif_answer(answer: Result<(), BlifRefusal>) -> Result<(), Outcome>
    ensures { IsBlifAnswer answer result }
{
    match answer {
        Ok(()) => Ok(()),
        Err(refusal) => Err(Outcome::from(refusal)),
    }
}

/// The same of its verdict.
fn blif_verdict(verdict: Result<Machine, BlifRefusal>) -> Result<Machine, Outcome>
    ensures { IsBlifVerdict verdict result }
{
    match verdict {
        Ok(machine) => Ok(machine),
        Err(refusal) => Err(Outcome::from(refusal)),
    }
}

impl Consumer for SourceReader {
    ghost use Rattle.pulse_ids.specs.Quantities.{greatest_of};
    ghost use Rattle.pulse_ids.specs.declared.quantities.Quantity.TheVariants.{SourceBytes};
    ghost use Rattle.source_machine.specs.Machines.{PlainMachine};
    ghost use Rattle.xsfq_cli.specs.Limited.{long_shown, none_quiet, source_bytes_counted};
    ghost use Rattle.xsfq_cli.specs.Reading.{HasRead};
    ghost use Rattle.xsfq_cli.specs.Sources.{HasVerdict, source_shown};

    type Whole = Machine;

    ghost reads = { λ text reader. HasRead text reader.head reader.aiger reader.blif };

    ghost shows = { source_shown };

    ghost judges = { HasVerdict };

    ghost most = { greatest_of SourceBytes };

    fn feed(&mut self, piece: &[u8]) -> Result<(), Outcome> {
        let held = self.head.bytes().len();
        let count = self.head.take(piece);
        if !self.head.is_full() {
            return Ok(());
        }
        if !begins_aiger(self.head.bytes()) {
            return blif_answer(self.feed_blif(held, &piece[count..]));
        }
        match self.feed_aiger(held, &piece[count..]) {
            Ok(()) => Ok(()),
            Err(refusal) => Err(Outcome::from(refusal)),
        }
    }

    fn finish(self) -> Result<Machine, Outcome> {
        if !begins_aiger(self.head.bytes()) {
            let blif = self.blif;
            return blif_verdict(finish_blif(&self.head, blif));
        }
        match self.aiger.finish() {
            Ok(machine) => Ok(machine),
            Err(refusal) => Err(Outcome::from(refusal)),
        }
    }

    ghost quiet = { none_quiet };

    ghost counted = { source_bytes_counted };

    ghost limited = { long_shown };
}
