//! What the end of a source shows.

ghost use Rattle.std.specs.Prelude.{◌≡◌, ◌==◌, ◌≤◌, ◌<◌, ◌^◌, ◌+◌, ◌-◌, ◌∷◌, ◌++◌, [], ℕ, List, Some, None, Result, Ok, Err, IfOk, IfErr, OnOk, IfSome, IfNone, length, map};
ghost use Rattle.std.specs.List.{list_any};
ghost use Rattle.word_scan.specs.Lines.{next_number, begun};
ghost use Rattle.word_scan.specs.Logical.{begun_line, logical_after, logical_begun};
ghost use Rattle.source_machine.specs.declared.unset.Unset.{Unset};
ghost use Rattle.source_machine.specs.Machines.{PlainMachine, machine_of, equation_of, literal_of};
ghost use Rattle.source_machine.specs.Refusals.{IsRefusedFor};
ghost use Rattle.source_machine.specs.Grounding.{IsWellFounded};
ghost use Rattle.source_machine.specs.Fitting.{Fits};
ghost use Rattle.source_machine.specs.Additions.{with_nets};
ghost use Rattle.blif_reader.specs.declared.refusals.BlifRefusal.{BlifRefusal};
ghost use Rattle.blif_reader.specs.States.{closed};
ghost use Rattle.blif_reader.specs.Bounds.{IsBounded};
ghost use Rattle.blif_reader.specs.Sources.{limit, line_begun, logical_left, lines_left, lines_closed, NamesNet, lines_read, is_read, is_made, is_input, in_rows, in_cube, is_data, is_derived};
ghost use Rattle.blif_reader.specs.Sources.{clock_cause, PlainSource, source_of, whole_source, judgement, IsVerdictOf, IsMachineCause, IsMachineRefusal};
ghost use Rattle.blif_reader.specs.Readings.{IsSafe, IsReading, OrMemory, HasAnswered};

use crate::pieces::{read_line, read_logical};
use crate::readings::Reading;
use crate::refusals::{BlifCause, BlifRefusal, fault_at};
use crate::states::State;
use crate::uses::{is_input, is_made, is_read};
use numbered_names::Names;
use pulse_ids::{Ident, NoMemory};
use source_machine::{Grounding, Machine, Place, RawMachine, Unset, ground};
use std::alloc::Global;
use word_scan::{Lines, Logical};

/// Reads the logical line that has begun.
fn read_begun(
    alloc: Global,
    unset: Unset,
    logical: &Logical,
    state: &mut State,
) -> Result<(), BlifRefusal>
    requires { IsBounded state.old }
    ensures bounded { OnOk result (IsBounded state.new) }
    ensures ok { OnOk result (lines_read unset (Ok state.old) (logical_left (begun_line logical.now)) ≡ Ok state.new) }
    ensures err { IfErr result (λ refusal. OrMemory refusal (lines_read unset (Ok state.old) (logical_left (begun_line logical.now)) ≡ Err refusal)) }
{
    if logical.is_whole() {
        return Ok(());
    }
    read_logical(alloc, unset, state, logical.text(), logical.first())
}

/// Reads the last physical line, and the logical line that it leaves begun.
fn read_closed(
    alloc: Global,
    unset: Unset,
    logical: &mut Logical,
    state: &mut State,
    line: &[u8],
    number: u32,
) -> Result<(), BlifRefusal>
    requires { IsBounded state.old }
    ensures bounded { OnOk result (IsBounded state.new) }
    ensures ok { OnOk result (lines_read unset (Ok state.old) (lines_closed (line.now ∷ []) number (begun_line logical.old)) ≡ Ok state.new) }
    ensures err { IfErr result (λ refusal. OrMemory refusal (lines_read unset (Ok state.old) (lines_closed (line.now ∷ []) number (begun_line logical.old)) ≡ Err refusal)) }
{
    read_line(alloc, unset, logical, state, line, number)?;
    read_begun(alloc, unset, logical, state)
}

/// The physical line that the end of the text closes.
fn last_line(lines: &Lines) -> Option<&[u8]>
    ensures some { IfSome result (λ line. line_begun (begun lines.now) ≡ line.now ∷ []) }
    ensures number { IfSome result (λ line. lines.now.number ≡ next_number lines.now) }
    ensures none { IfNone result (line_begun (begun lines.now) ≡ []) }
{
    if lines.rest() {
        return Some(lines.line());
    }
    None
}

/// Reads the lines that the end of the text closes.
fn read_last(
    alloc: Global,
    unset: Unset,
    lines: &Lines,
    logical: &mut Logical,
    state: &mut State,
) -> Result<(), BlifRefusal>
    requires { IsBounded state.old }
    ensures bounded { OnOk result (IsBounded state.new) }
    ensures ok { OnOk result (lines_read unset (Ok state.old) (lines_left (begun lines.now) (next_number lines.now) (begun_line logical.old)) ≡ Ok state.new) }
    ensures err { IfErr result (λ refusal. OrMemory refusal (lines_read unset (Ok state.old) (lines_left (begun lines.now) (next_number lines.now) (begun_line logical.old)) ≡ Err refusal)) }
{
    match last_line(lines) {
        None => read_begun(alloc, unset, logical, state),
        Some(line) => read_closed(alloc, unset, logical, state, line, lines.number()),
    }
}

fn is_data(machine: &RawMachine, clock: Option<u32>) -> bool
    ensures { result ≡ is_data (machine_of machine.now) clock }
{
    match clock {
        None => false,
        Some(net) => is_read(machine, net),
    }
}

fn is_derived(machine: &RawMachine, clocked: bool, clock: Option<u32>) -> bool
    ensures { result ≡ is_derived (machine_of machine.now) clocked clock }
{
    match clock {
        None => !clocked,
        Some(net) => is_made(machine, net) || !(is_input(machine, net) || clocked),
    }
}

impl State {
    /// The fault of the clock.
    fn clock_cause(&self) -> Result<Option<BlifCause>, NoMemory>
        ensures { IfOk result (λ cause. cause ≡ clock_cause self.now self.now.clock) }
    {
        let Some(clock) = &self.clock else {
            return Ok(None);
        };
        let number = self.nets.find(clock.bytes());
        if is_data(&self.machine, number) {
            return Ok(Some(BlifCause::ClockAsData(clock.clone()?)));
        }
        if is_derived(&self.machine, self.clocked, number) {
            return Ok(Some(BlifCause::DerivedClock(clock.clone()?)));
        }
        Ok(None)
    }
}

/// The cause of a machine's refusal.
fn machine_cause(nets: &Names, grounding: Grounding) -> Result<BlifCause, NoMemory>
    requires { NamesNet (length nets.now) grounding }
    ensures { IfOk result (λ cause. (machine : PlainMachine) → IsRefusedFor machine grounding → IsMachineCause (record { nets = nets.now; machine = machine }) cause) }
{
    match grounding {
        Grounding::DoubleDriver(net) => {
            let name = nets.name(net.number())?;
            Ok(BlifCause::DoubleDriver(name))
        }
        Grounding::Undriven(net) => {
            let name = nets.name(net.number())?;
            Ok(BlifCause::Undriven(name))
        }
        Grounding::Cycle(net) => {
            let name = nets.name(net.number())?;
            Ok(BlifCause::Cycle(name))
        }
        Grounding::NoMemory => Err(NoMemory),
    }
}

/// The machine, where it is well founded.
fn grounded(alloc: Global, nets: &Names, raw: RawMachine) -> Result<Machine, BlifRefusal>
    requires fits { Fits (machine_of raw) }
    requires nets { raw.nets ≡ length nets.now }
    ensures ok { IfOk result (λ machine. (machine ≡ machine_of raw) × IsWellFounded (machine_of raw)) }
    ensures err { IfErr result (λ refusal. OrMemory refusal (IsMachineRefusal (record { nets = nets.now; machine = machine_of raw }) refusal)) }
{
    match ground(alloc, raw) {
        Ok(machine) => Ok(machine),
        Err(grounding) => match machine_cause(nets, grounding) {
            Ok(cause) => Err(fault_at(Place::Whole, cause)),
            Err(NoMemory) => Err(BlifRefusal::NoMemory),
        },
    }
}

/// The machine that all logical lines tell, with these nets.
fn machine_whole(alloc: Global, nets: &Names, machine: RawMachine) -> Result<Machine, BlifRefusal>
    requires { Fits (with_nets (machine_of machine) (length nets.now)) }
    ensures ok { IfOk result (λ read. (read ≡ with_nets (machine_of machine) (length nets.now)) × IsWellFounded (with_nets (machine_of machine) (length nets.now))) }
    ensures err { IfErr result (λ refusal. OrMemory refusal (IsMachineRefusal (record { nets = nets.now; machine = with_nets (machine_of machine) (length nets.now) }) refusal)) }
{
    let mut raw = machine;
    raw.nets = nets.len();
    grounded(alloc, nets, raw)
}

/// What all logical lines tell.
fn read_whole(alloc: Global, state: State) -> Result<Machine, BlifRefusal>
    requires { IsBounded state }
    ensures machine { IfOk result (λ machine. IsVerdictOf (whole_source state) (Ok machine)) }
    ensures refusal { IfErr result (λ refusal. OrMemory refusal (IsVerdictOf (whole_source state) (Err refusal))) }
{
    if !state.modelled {
        return Err(fault_at(Place::Whole, BlifCause::NoModel));
    }
    let mut state = state;
    state.close()?;
    if let Some(cause) = state.clock_cause()? {
        return Err(fault_at(Place::Whole, cause));
    }
    let machine = state.machine;
    machine_whole(alloc, &state.nets, machine)
}

/// The machine of a source that has ended, or why there is none.
pub(crate) fn finished(alloc: Global, reading: Reading) -> Result<Machine, BlifRefusal>
    requires { IsSafe reading }
    ensures again { (refusal : BlifRefusal) → HasAnswered reading refusal → result ≡ Err refusal }
    ensures machine { IfOk result (λ machine. (unset : Unset) (text : List ℕ) → IsReading unset text reading → IsVerdictOf (judgement unset text) (Ok machine)) }
    ensures refusal { IfErr result (λ refusal. (unset : Unset) (text : List ℕ) → IsReading unset text reading → OrMemory refusal (IsVerdictOf (judgement unset text) (Err refusal))) }
{
    let Reading {
        unset,
        lines,
        mut logical,
        mut state,
        taken: _,
        stopped,
    } = reading;
    if let Some(refusal) = stopped {
        return Err(refusal);
    }
    read_last(alloc, unset, &lines, &mut logical, &mut state)?;
    read_whole(alloc, state)
}
