//! A text that was read up to some byte.

ghost use Rattle.std.specs.Prelude.{◌≡◌, ◌≤◌, ◌+◌, ◌-◌, ◌++◌, ℕ, List, false, Some, None, Ok, Err, IfOk, IfErr, OnOk, OnErr, length, take, []};
ghost use Rattle.word_scan.specs.Reading.{HasRead};
ghost use Rattle.netlist_reader.specs.declared.refusals.NetRefusal.{NetRefusal};
ghost use Rattle.netlist_reader.specs.declared.refusals.NetRefusal.TheVariants.{NoMemory};
ghost use Rattle.netlist_reader.specs.Places.{has_end};
ghost use Rattle.netlist_reader.specs.Building.{has_ended, line_read, start, OrMemory};
ghost use Rattle.netlist_reader.specs.Verdicts.{limit, lines_in, after_end, early, net_verdict};
ghost use Rattle.netlist_reader.specs.Readings.{IsFine, IsSafe, IsReading, Answers, StopsAt};

use crate::built::Built;
use crate::pieces::take_piece;
use crate::refusals::NetRefusal;
use cell_netlist::Netlist;
use pulse_ids::Quantity;
use std::alloc::Global;
use word_scan::Lines;

const LIMIT: usize = 134_217_728;

/// What was taken of a piece, and whether the text has ended.
#[derive(Clone, Copy, Debug, PartialEq, Eq)]
pub struct Fed {
    /// How many bytes were taken: all, but for those after the `end` line.
    pub used: usize,
    /// Whether the whole `end` line was taken.
    pub ended: bool,
}

/// The present line, what was built, the number of bytes, and why reading stopped.
#[derive(Debug, Drop)]
pub struct Reading {
    pub(crate) lines: Lines,
    pub(crate) built: Built,
    pub(crate) taken: usize,
    pub(crate) stopped: Option<NetRefusal>,
}

/// How many bytes may still come.
fn room_after(taken: usize) -> usize
    requires { taken ≤ limit }
    ensures { result ≡ limit - taken }
{
    LIMIT - taken
}

/// Takes a piece up to the end of the text, where so many bytes may still come, and answers how many it took.
fn read_on(
    alloc: Global,
    lines: &mut Lines,
    built: &mut Built,
    piece: &[u8],
    room: usize,
) -> Result<usize, NetRefusal>
    requires room { room ≤ limit }
    requires fine { IsFine lines.old built.old }
    requires few { built.old.lines ≤ limit - room }
    ensures fine { OnOk result (IsFine lines.new built.new) }
    ensures used { IfOk result (λ used. (used ≤ length piece.now) × (used ≤ room)) }
    ensures few { IfOk result (λ used. built.new.lines ≤ built.old.lines + used) }
    ensures all { IfOk result (λ used. has_ended built.new ≡ false → used ≡ length piece.now) }
    ensures ok { IfOk result (λ used. (text : List ℕ) → HasRead line_read start text lines.old built.old
        → HasRead line_read start (text ++ take used piece.now) lines.new built.new) }
    ensures err { IfErr result (λ refusal. (text : List ℕ) → length text ≡ limit - room → HasRead line_read start text lines.old built.old
        → OrMemory refusal (early (text ++ piece.now) ≡ Some refusal)) }
    ensures stops { IfErr result (λ refusal. (text : List ℕ) → length text ≡ limit - room → HasRead line_read start text lines.old built.old
        → StopsAt (text ++ piece.now) refusal built.new.lines built.new.inputs) }
{
    let within = piece.len().min(room);
    let used = take_piece(alloc, lines, built, &piece[..within])?;
    if room < piece.len() && !built.has_ended() {
        return Err(NetRefusal::Limit(Quantity::NetBytes));
    }
    Ok(used)
}

/// Takes a piece up to the end of the text.
pub(crate) fn take_more(
    alloc: Global,
    reading: &mut Reading,
    piece: &[u8],
) -> Result<Fed, NetRefusal>
    requires { IsSafe reading.old }
    ensures safe { IsSafe reading.new }
    ensures used { IfOk result (λ fed. fed.used ≤ length piece.now) }
    ensures all { IfOk result (λ fed. fed.ended ≡ false → fed.used ≡ length piece.now) }
    ensures ended { IfOk result (λ fed. (text : List ℕ) → IsReading text reading.old → fed.ended ≡ has_end (lines_in (text ++ take fed.used piece.now))) }
    ensures nothing_after { IfOk result (λ fed. (text : List ℕ) → IsReading text reading.old → after_end (text ++ take fed.used piece.now) ≡ []) }
    ensures ok { IfOk result (λ fed. (text : List ℕ) → IsReading text reading.old → IsReading (text ++ take fed.used piece.now) reading.new) }
    ensures err { OnErr result ((text : List ℕ) → IsReading text reading.old → IsReading (text ++ piece.now) reading.new) }
    ensures early { (text : List ℕ) → IsReading text reading.old → Answers result (early (text ++ piece.now)) }
    ensures goes_on { OnOk result (reading.new.stopped ≡ None) }
    ensures kept { IfErr result (λ refusal. reading.new.stopped ≡ Some refusal) }
    ensures again { (refusal : NetRefusal) → reading.old.stopped ≡ Some refusal → result ≡ Err refusal }
{
    match reading.stopped {
        Some(refusal) => Err(refusal),
        None => {
            let room = room_after(reading.taken);
            match read_on(alloc, &mut reading.lines, &mut reading.built, piece, room) {
                Ok(used) => {
                    reading.taken += used;
                    Ok(Fed {
                        used,
                        ended: reading.built.has_ended(),
                    })
                }
                Err(refusal) => {
                    reading.stopped = Some(refusal);
                    Err(refusal)
                }
            }
        }
    }
}

/// The netlist of a text that has ended, or why there is none.
pub(crate) fn finished(reading: Reading) -> Result<Netlist, NetRefusal>
    requires { IsSafe reading }
    ensures net { IfOk result (λ net. (text : List ℕ) → IsReading text reading → net_verdict text ≡ Ok (net, [])) }
    ensures err { IfErr result (λ refusal. (text : List ℕ) → IsReading text reading → OrMemory refusal (net_verdict text ≡ Err refusal)) }
    ensures again { (refusal : NetRefusal) → reading.stopped ≡ Some refusal → result ≡ Err refusal }
    ensures no_memory { result ≡ Err NoMemory → reading.stopped ≡ Some NoMemory }
{
    match reading.stopped {
        Some(refusal) => Err(refusal),
        None => {
            if !reading.built.has_ended() {
                return Err(NetRefusal::Truncated);
            }
            Ok(reading.built.net)
        }
    }
}

impl Reading {
    /// Before the first byte.
    pub(crate) fn new(alloc: Global) -> Reading
        ensures safe { IsSafe result }
        ensures read { IsReading [] result }
    {
        Reading {
            lines: Lines::new(alloc),
            built: Built::new(alloc),
            taken: 0,
            stopped: None,
        }
    }
}
