//! What the end of a source shows.

ghost use Rattle.std.specs.Prelude.{◌≡◌, ◌≤◌, ◌<◌, ◌+◌, ℕ, List, Some, Result, Ok, Err, IfOk, IfErr, OnOk, length, decimal};
ghost use Rattle.word_scan.specs.Reading.{read_on};
ghost use Rattle.source_machine.specs.declared.unset.Unset.{Unset};
ghost use Rattle.source_machine.specs.Machines.{PlainMachine, machine_of};
ghost use Rattle.source_machine.specs.Refusals.{IsRefusedFor};
ghost use Rattle.source_machine.specs.Grounding.{IsWellFounded};
ghost use Rattle.source_machine.specs.Fitting.{Fits};
ghost use Rattle.aiger_reader.specs.Sections.{kind_at};
ghost use Rattle.aiger_reader.specs.Building.{shown_read, StopsFor};
ghost use Rattle.aiger_reader.specs.Bounds.{IsBounded};
ghost use Rattle.aiger_reader.specs.Sources.{limit, last_unit, judgement, IsVerdictOf, IsMachineCause, IsMachineRefusal};
ghost use Rattle.aiger_reader.specs.Readings.{IsFine, IsSafe, IsReading, OrMemory, HasAnswered};
ghost use Rattle.aiger_reader.specs.declared.refusals.AigerRefusal.{AigerRefusal};

use crate::built::Built;
use crate::readings::Reading;
use crate::refusals::{AigerCause, AigerRefusal, Stop, fault_at};
use crate::units::{UnitKind, without_cr};
use itoa::Buffer;
use pulse_ids::{Ident, Name, NetId, NoMemory};
use source_machine::{Grounding, Machine, Place, RawMachine, Unset, ground};
use std::alloc::Global;

/// Reads the line that the end of the text closes, where it isn't empty.
fn read_last(alloc: Global, unset: Unset, begun: &[u8], built: &mut Built) -> Result<(), Stop>
    requires fine { IsFine begun.now built.old }
    requires room { built.old.start + length begun.now ≤ limit }
    ensures bounded { OnOk result (IsBounded built.new) }
    ensures ok { OnOk result (read_on (shown_read unset) (Ok built.old) (last_unit (kind_at built.old.header built.old.place) begun.now) ≡ Ok built.new) }
    ensures err { IfErr result (λ stop. StopsFor stop (read_on (shown_read unset) (Ok built.old) (last_unit (kind_at built.old.header built.old.place) begun.now))) }
{
    match built.kind() {
        UnitKind::Delta => Ok(()),
        UnitKind::Line => {
            if without_cr(begun).is_empty() {
                return Ok(());
            }
            built.read(alloc, unset, begun)
        }
    }
}

/// The decimal text of a variable.
fn variable_name(alloc: Global, net: NetId) -> Result<Name, NoMemory>
    ensures { IfOk result (λ name. name ≡ decimal net.number) }
{
    let mut buffer = Buffer::new();
    let text = buffer.format(net.number());
    Name::new(alloc, text.as_bytes())
}

/// The cause of a machine's refusal.
fn machine_cause(alloc: Global, grounding: Grounding) -> Result<AigerCause, NoMemory>
    ensures { IfOk result (λ cause. (machine : PlainMachine) → IsRefusedFor machine grounding → IsMachineCause machine cause) }
{
    Ok(match grounding {
        Grounding::DoubleDriver(net) => AigerCause::DoubleDriver(variable_name(alloc, net)?),
        Grounding::Undriven(net) => AigerCause::Undriven(variable_name(alloc, net)?),
        Grounding::Cycle(net) => AigerCause::Cycle(variable_name(alloc, net)?),
        Grounding::NoMemory => return Err(NoMemory),
    })
}

/// The machine, where it is well founded.
fn grounded(alloc: Global, raw: RawMachine) -> Result<Machine, AigerRefusal>
    requires { Fits (machine_of raw) }
    ensures ok { IfOk result (λ machine. (machine ≡ machine_of raw) × IsWellFounded (machine_of raw)) }
    ensures err { IfErr result (λ refusal. OrMemory refusal (IsMachineRefusal (machine_of raw) refusal)) }
{
    match ground(alloc, raw) {
        Ok(machine) => Ok(machine),
        Err(grounding) => match machine_cause(alloc, grounding) {
            Ok(cause) => Err(fault_at(Place::Whole, cause)),
            Err(NoMemory) => Err(AigerRefusal::NoMemory),
        },
    }
}

/// The machine of a source that has ended, or why there is none.
pub(crate) fn finished(alloc: Global, reading: Reading) -> Result<Machine, AigerRefusal>
    requires { IsSafe reading }
    ensures again { (refusal : AigerRefusal) → HasAnswered reading refusal → result ≡ Err refusal }
    ensures machine { IfOk result (λ machine. (unset : Unset) (text : List ℕ) → IsReading unset text reading → IsVerdictOf (judgement unset text) (Ok machine)) }
    ensures refusal { IfErr result (λ refusal. (unset : Unset) (text : List ℕ) → IsReading unset text reading → OrMemory refusal (IsVerdictOf (judgement unset text) (Err refusal))) }
{
    if let Some(stop) = reading.stopped {
        return Err(stop.refusal());
    }
    let mut built = reading.built;
    if let Err(stop) = read_last(alloc, reading.unset, reading.begun.as_slice(), &mut built) {
        return Err(stop.refusal());
    }
    let raw = built.into_machine(reading.taken as u32)?;
    grounded(alloc, raw)
}
