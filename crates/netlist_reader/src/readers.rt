//! The reader of netlist texts.

use crate::readings::{Fed, Reading, finished, take_more};
use crate::refusals::NetRefusal;
use cell_netlist::Netlist;
use std::alloc::Global;
use std::marker::Model;

/// A reader of a netlist text that comes in pieces of any size.
///
/// It keeps the present line and the netlist so far. After a refusal every further call answers the same refusal.
/// Its memory grows with the lines that were read, and not with the numbers that stand in them.
#[derive(Debug, Drop)]
pub struct NetReader {
    alloc: Global,
    reading: Reading,
}

impl Model for NetReader {
    ghost use Rattle.netlist_reader.specs.declared.readings.Reading.{Reading};

    ghost Value = { Reading };

    ghost view = { λ reader. reader.reading };

    ghost use Rattle.netlist_reader.specs.Readings.{IsSafe};

    ghost invariant = { λ reader. IsSafe reader.reading };
}

impl NetReader {
    ghost use Rattle.std.specs.Prelude.{◌≡◌, ◌≤◌, ◌^◌, ◌++◌, [], ℕ, List, false, Some, None, Ok, Err, IfOk, IfErr, OnOk, OnErr, length, take};
    ghost use Rattle.word_scan.specs.Lines.{whole_lines};
    ghost use Rattle.netlist_reader.specs.declared.refusals.NetRefusal.{NetRefusal};
    ghost use Rattle.netlist_reader.specs.declared.refusals.NetRefusal.TheVariants.{NoMemory};
    ghost use Rattle.netlist_reader.specs.Places.{inputs_of, has_end};
    ghost use Rattle.netlist_reader.specs.Building.{OrMemory};
    ghost use Rattle.netlist_reader.specs.Verdicts.{lines_in, after_end, early, net_verdict};
    ghost use Rattle.netlist_reader.specs.Readings.{IsReading, Answers, StopsAt};

    /// Before the first byte. It takes no memory.
    pub fn new(alloc: Global) -> NetReader
        ensures { IsReading [] result }
    {
        NetReader {
            alloc,
            reading: Reading::new(alloc),
        }
    }

    /// Takes the next piece, but for the bytes after the `end` line, and answers the first refusal that the bytes so
    /// far show: that of the first whole line that has no form of the text, doesn't stand in its place or passes a
    /// limit, or the limit of 134,217,728 bytes. After the `end` line it takes nothing. It takes linear time.
    pub fn feed(&mut self, piece: &[u8]) -> Result<Fed, NetRefusal>
        ensures used { IfOk result (λ fed. fed.used ≤ length piece.now) }
        ensures all { IfOk result (λ fed. fed.ended ≡ false → fed.used ≡ length piece.now) }
        ensures ended { IfOk result (λ fed. (text : List ℕ) → IsReading text self.old → fed.ended ≡ has_end (lines_in (text ++ take fed.used piece.now))) }
        ensures nothing_after { IfOk result (λ fed. (text : List ℕ) → IsReading text self.old → after_end (text ++ take fed.used piece.now) ≡ []) }
        ensures ok { IfOk result (λ fed. (text : List ℕ) → IsReading text self.old → IsReading (text ++ take fed.used piece.now) self.new) }
        ensures err { OnErr result ((text : List ℕ) → IsReading text self.old → IsReading (text ++ piece.now) self.new) }
        ensures early { (text : List ℕ) → IsReading text self.old → Answers result (early (text ++ piece.now)) }
        ensures goes_on { OnOk result (self.new.stopped ≡ None) }
        ensures kept { IfErr result (λ refusal. self.new.stopped ≡ Some refusal) }
        ensures again { (refusal : NetRefusal) → self.old.stopped ≡ Some refusal → result ≡ Err refusal }
    {
        take_more(self.alloc, &mut self.reading, piece)
    }

    /// The netlist of the bytes taken, or why there is none: what they show early, or `Truncated` where no whole
    /// `end` line is among them. It takes no memory: `NoMemory` comes only where it was answered before.
    pub fn finish(self) -> Result<Netlist, NetRefusal>
        ensures net { IfOk result (λ net. (text : List ℕ) → IsReading text self → net_verdict text ≡ Ok (net, [])) }
        ensures err { IfErr result (λ refusal. (text : List ℕ) → IsReading text self → OrMemory refusal (net_verdict text ≡ Err refusal)) }
        ensures again { (refusal : NetRefusal) → self.stopped ≡ Some refusal → result ≡ Err refusal }
        ensures no_memory { result ≡ Err NoMemory → self.stopped ≡ Some NoMemory }
    {
        finished(self.reading)
    }

    /// The number of whole lines that were taken, which is at most 2^27 where the reader goes on. Of a reader that refused a
    /// line it is the number of those before.
    pub fn lines(&self) -> u32
        ensures value { result ≡ self.now.built.lines }
        ensures lines { (text : List ℕ) → IsReading text self.now → self.now.stopped ≡ None → result ≡ length (whole_lines text) }
        ensures few { self.now.stopped ≡ None → result ≤ 2 ^ 27 }
        ensures stops { (text : List ℕ) (refusal : NetRefusal) → IsReading text self.now → self.now.stopped ≡ Some refusal → StopsAt text refusal result self.now.built.inputs }
    {
        self.reading.built.lines
    }

    /// The number of input ports. None exactly before the whole `ports` line: a reader that refused that line for a limit
    /// still tells the number, and one that refused an earlier line tells none, whatever follows.
    pub fn inputs(&self) -> Option<u32>
        ensures value { result ≡ self.now.built.inputs }
        ensures inputs { (text : List ℕ) → IsReading text self.now → self.now.stopped ≡ None → result ≡ inputs_of (lines_in text) }
        ensures stops { (text : List ℕ) (refusal : NetRefusal) → IsReading text self.now → self.now.stopped ≡ Some refusal → StopsAt text refusal self.now.built.lines result }
    {
        self.reading.built.inputs
    }
}
