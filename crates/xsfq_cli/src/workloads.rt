//! `workload`: a counter of so many bits, its netlist and what it costs.

ghost use Rattle.std.specs.Prelude.{◌≡◌, ◌≤◌, ◌++◌, true, [], ◌∷◌, IfOk, IsTrue, OnOk, replicate};
ghost use Rattle.byte_ports.specs.Writing.{WritesText};
ghost use Rattle.source_machine.specs.declared.grounding.Grounding.TheVariants as groundings;
ghost use Rattle.junction_report.specs.Texts.{numbered_line};
ghost use Rattle.pulse_traces.specs.declared.orders.DeliveryOrder.TheVariants.{Mix};
ghost use Rattle.pulse_traces.specs.CycleCounts.{CountsSimulation};
ghost use Rattle.workload_circuits.specs.Counters.{counter};
ghost use Rattle.xsfq_cli.specs.Workloads.{IsDone, head_text, summary_text, tail_text, work_text};

use crate::commands::Command;
use crate::compiling::netlist_of;
use byte_ports::{Failed, Sink, Source};
use cell_netlist::{Ask, SoundNet, Version};
use junction_report::{Report, report, write_sizes};
use netlist_writer::write_netlist;
use pulse_ids::NoMemory;
use pulse_traces::{DeliveryOrder, PulseCounts, Simulation};
use run_outcomes::Outcome;
use source_machine::{Grounding, Machine, ground};
use std::alloc::Global;
use text_pieces::{Piece, write_pieces};
use workload_circuits::{counter, counters_are_founded};

/// Makes a counter of so many bits, compiles it, simulates it and reports on it.
#[derive(Clone, Copy, Drop)]
pub(crate) struct MakeWorkload {
    pub(crate) bits: u32,
}

/// The netlist of a counter, the report on it, and the counts of its pulses.
#[derive(Debug, Drop)]
pub(crate) struct Work {
    bits: u32,
    net: SoundNet,
    report: Report,
    counts: PulseCounts,
}

/// Want of memory, where nothing else refuses a machine.
fn want_of_memory(_refusal: Grounding) -> NoMemory
    requires { _refusal ≡ groundings.NoMemory }
{
    NoMemory
}

/// The machine of a counter.
fn machine_of(alloc: Global, bits: u32) -> Result<Machine, NoMemory>
    requires { bits ≤ 4096 }
    ensures { IfOk result (λ machine. machine ≡ counter bits) }
{
    counters_are_founded();
    match ground(alloc, counter(alloc, bits)?) {
        Ok(machine) => Ok(machine),
        Err(refusal) => Err(want_of_memory(refusal)),
    }
}

/// The counts of 16 cycles of a netlist of one input, in which the input is 1, in the order `mix` of a number.
fn pulses(alloc: Global, net: &SoundNet, number: u32) -> Result<PulseCounts, NoMemory>
    requires { net.now.inputs ≡ 1 }
    ensures { IfOk result (λ counts. CountsSimulation (Mix number) net.now (replicate 16 (true ∷ [])) counts) }
{
    let simulation = Simulation::new(alloc, net)?;
    Ok(simulation.count(DeliveryOrder::Mix(number), &[true], 16))
}

/// Does all the work: it takes all memory and writes nothing.
fn do_work(alloc: Global, bits: u32) -> Result<Work, NoMemory>
    requires { bits ≤ 4096 }
    ensures bits { IfOk result (λ work. work.bits ≡ bits) }
    ensures work { IfOk result (λ work. IsDone work) }
{
    let machine = machine_of(alloc, bits)?;
    let net = netlist_of(alloc, &machine, Ask::Pos, Version::One)?;
    let report = report(alloc, &net)?;
    let counts = pulses(alloc, &net, bits)?;
    Ok(Work {
        bits,
        net,
        report,
        counts,
    })
}

/// Writes two lines, each of a word and a number.
fn write_two<'a, K: Sink>(
    output: &mut K,
    one: (&'a [u8], u64),
    other: (&'a [u8], u64),
) -> Result<(), Failed>
    ensures { WritesText (K.taken output.old) (K.taken output.new) (K.faults output.old) (K.faults output.new) result
        (numbered_line (one.entry.0.now, one.entry.1) ++ numbered_line (other.entry.0.now, other.entry.1)) }
{
    let pieces = [
        Piece::Text(one.0),
        Piece::Text(b" "),
        Piece::Number(one.1),
        Piece::Text(b"\n"),
        Piece::Text(other.0),
        Piece::Text(b" "),
        Piece::Number(other.1),
        Piece::Text(b"\n"),
    ];
    write_pieces(&pieces, output)
}

/// Writes the lines before those of the report.
fn write_head<K: Sink>(work: &Work, output: &mut K) -> Result<(), Failed>
    ensures { WritesText (K.taken output.old) (K.taken output.new) (K.faults output.old) (K.faults output.new) result (head_text work.now) }
{
    let wires = work.net.net().wires();
    write_two(
        output,
        (b"workload", work.bits as u64),
        (b"wires", wires as u64),
    )
}

/// Writes the lines after those of the report.
fn write_tail<K: Sink>(work: &Work, output: &mut K) -> Result<(), Failed>
    ensures { WritesText (K.taken output.old) (K.taken output.new) (K.faults output.old) (K.faults output.new) result (tail_text work.now) }
{
    write_two(
        output,
        (b"deliveries", work.counts.deliveries),
        (b"ones", work.counts.ones),
    )
}

/// Writes the summary.
fn write_summary<K: Sink>(work: &Work, output: &mut K) -> Result<(), Failed>
    ensures { WritesText (K.taken output.old) (K.taken output.new) (K.faults output.old) (K.faults output.new) result (summary_text work.now) }
{
    write_head(work, output)?;
    write_sizes(&work.report, output)?;
    write_tail(work, output)
}

/// Writes the netlist and the summary.
fn write_work<K: Sink>(work: &Work, output: &mut K) -> Result<(), Failed>
    ensures { WritesText (K.taken output.old) (K.taken output.new) (K.faults output.old) (K.faults output.new) result (work_text work.now) }
{
    write_netlist(work.net.net(), output)?;
    write_summary(work, output)
}

/// Writes all of it and flushes.
fn emit<K: Sink>(work: &Work, output: &mut K) -> Result<(), Failed>
    ensures written { WritesText (K.taken output.old) (K.taken output.new) (K.faults output.old) (K.faults output.new) result (work_text work.now) }
    ensures flushed { OnOk result (IsTrue (K.flushed output.new)) }
{
    write_work(work, output)?;
    output.flush()
}

impl Command for MakeWorkload {
    ghost use Rattle.std.specs.Prelude.{◌≡◌, ◌≤◌};
    ghost use Rattle.xsfq_cli.specs.declared.orders.Order.TheVariants as orders;
    ghost use Rattle.run_outcomes.specs.declared.outcomes.Outcome.TheVariants as outcomes;
    ghost use Rattle.xsfq_cli.specs.Workloads.{work_text};

    type Task = Work;

    ghost order = { λ command. orders.Workload command.bits };

    ghost ready = { λ command. (1 ≤ command.bits) × (command.bits ≤ 4096) };

    ghost tells = { λ work text ending. (text ≡ work_text work) × (ending ≡ outcomes.Done) };

    fn prepare<S: Source>(self, alloc: Global, _input: &mut S) -> Result<Work, Outcome> {
        let work = do_work(alloc, self.bits)?;
        Ok(work)
    }

    fn write<K: Sink>(task: Work, output: &mut K) -> Result<Outcome, Failed> {
        emit(&task, output)?;
        Ok(Outcome::Done)
    }
}
