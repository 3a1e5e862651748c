//! The top call: all that the program does.

ghost use Rattle.std.specs.Prelude.{◌<◌, ◌-◌, ◌^◌, IfSome, map};
ghost use Rattle.std.specs.String.{string_bytes};
ghost use Rattle.xsfq_cli.specs.Orders.{order_of};
ghost use Rattle.xsfq_cli.specs.Workloads.{IsInRange};
ghost use Rattle.xsfq_cli.specs.Table.{Answers, AnswersOrder, IsAnswered, input_of, output_of};

use crate::checking::Check;
use crate::commands::perform;
use crate::compiling::Compile;
use crate::notes::write_note;
use crate::orders::Order;
use crate::reporting::MakeReport;
use crate::simulating::simulate;
use crate::workloads::MakeWorkload;
use byte_ports::{Sink, Source};
use run_outcomes::Outcome;
use std::alloc::Global;

/// Carries out an order, where there is one.
fn carry_out<S: Source, K: Sink>(
    alloc: Global,
    order: Option<Order>,
    input: &mut S,
    output: &mut K,
) -> Outcome
    requires { IfSome order (λ its. IsInRange its) }
    ensures { Answers order (input_of S.left S.faults input.old input.new) (output_of K.taken K.faults K.flushed output.old output.new) result }
{
    match order {
        Some(order) => order_carried_out(alloc, order, input, output),
        None => Outcome::Usage,
    }
}

/// Carries out an order by its command.
fn order_carried_out<S: Source, K: Sink>(
    alloc: Global,
    order: Order,
    input: &mut S,
    output: &mut K,
) -> Outcome
    requires { IsInRange order }
    ensures { AnswersOrder order (input_of S.left S.faults input.old input.new) (output_of K.taken K.faults K.flushed output.old output.new) result }
{
    match order {
        Order::Compile(ask, version) => perform(Compile { ask, version }, alloc, input, output),
        Order::Check => perform(Check, alloc, input, output),
        Order::Report => perform(MakeReport, alloc, input, output),
        Order::Simulate(schedule, trace) => simulate(alloc, schedule, trace, input, output),
        Order::Workload(bits) => perform(MakeWorkload { bits }, alloc, input, output),
    }
}

/// Does what the words order, and answers how it ended.
///
/// `compile` reads a source from `input` and writes its netlist to `output`; `check` reads a netlist's text and writes
/// `sound` and the number of its wires; `report` reads one and writes the report on it; `simulate` reads one and vectors
/// for it, and writes which output rails pulse in each phase; `workload` reads nothing, and writes the netlist of a
/// counter and what it costs. All memory is taken before the first write, and the output
/// is flushed before `Done` and before a script's fault. For every outcome but `Done`, one line goes to `notes`, and
/// nothing that happens there changes the outcome.
pub fn run<S: Source, K: Sink, E: Sink>(
    alloc: Global,
    words: &[String],
    input: &mut S,
    output: &mut K,
    notes: &mut E,
) -> Outcome
    requires input { S.faults input.old < 2 ^ 64 - 1 }
    requires output { K.faults output.old < 2 ^ 64 - 1 }
    requires notes { E.faults notes.old < 2 ^ 64 - 1 }
    ensures { IsAnswered (order_of (map string_bytes words.now)) (input_of S.left S.faults input.old input.new)
        (output_of K.taken K.faults K.flushed output.old output.new) (output_of E.taken E.faults E.flushed notes.old notes.new) result }
{
    let outcome = carry_out(alloc, Order::from_words(words), input, output);
    write_note(&outcome, notes);
    outcome
}
