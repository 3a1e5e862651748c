//! `simulate`: the pulses of a netlist on vectors.

ghost use Rattle.std.specs.Prelude.{◌≡◌, ◌≤◌, ◌<◌, ◌^◌, List, Bool, IfOk, IsTrue, OnOk, length};
ghost use Rattle.std.specs.Io.KnownBytes.{Keeps};
ghost use Rattle.byte_ports.specs.Causes.{HasCause};
ghost use Rattle.pulse_ids.specs.Ids.{WireId};
ghost use Rattle.pulse_ids.specs.Lists.{IsIn};
ghost use Rattle.xsfq_cli.specs.declared.orders.Order.TheVariants as orders;
ghost use Rattle.xsfq_cli.specs.declared.orders.Schedule.TheVariants as schedules;
ghost use Rattle.xsfq_cli.specs.Halves.{Emits};
ghost use Rattle.xsfq_cli.specs.Simulated.{Simulates, ending_of};
ghost use Rattle.xsfq_cli.specs.Table.{AnswersOrder, input_of, output_of};

use crate::orders::Schedule;
use crate::simulation_inputs::read_input;
use byte_ports::{Failed, Sink, Source};
use pulse_traces::{CycleFault, DeliveryOrder, Simulation};
use pulse_world::every_order;
use run_outcomes::Outcome;
use schedule_replay::Vectors;
use simulation_reader::inputs_have_their_form;
use std::alloc::Global;

/// How a replay ends: with the first fault of a script, if there is one.
fn ending(fault: Option<CycleFault>) -> Outcome
    ensures { result ≡ ending_of fault }
{
    match fault {
        None => Outcome::Done,
        Some(
            CycleFault {
                cycle,
                phase,
                fault,
            },
        ) => Outcome::Script {
            cycle,
            phase,
            fault,
        },
    }
}

/// Flushes the output at the ending of a text.
fn flush_at<K: Sink>(ending: Outcome, output: &mut K) -> Result<Outcome, Failed>
    ensures bytes { Keeps (K.taken output.old) (K.taken output.new) }
    ensures cause { HasCause (K.faults output.old) (K.faults output.new) result }
    ensures flushed { OnOk result (IsTrue (K.flushed output.new)) }
    ensures same { IfOk result (λ same. same ≡ ending) }
{
    match output.flush() {
        Ok(()) => Ok(ending),
        Err(failed) => Err(failed),
    }
}

/// Writes the text of a simulation in an order, and flushes.
fn emit_ordered<K: Sink>(
    simulation: Simulation<'_>,
    order: DeliveryOrder,
    trace: bool,
    vectors: &Vectors,
    output: &mut K,
) -> Result<Outcome, Failed>
    requires width { (vector : List Bool) → IsIn vector vectors.now.vectors → length vector ≡ simulation.inputs }
    ensures { Emits (Simulates (schedules.Order order) trace (record { net = simulation.entry; vectors = vectors.now })) (output_of K.taken K.faults K.flushed output.old output.new) result }
{
    match simulation.write(order, trace, vectors, output) {
        Ok(()) => flush_at(Outcome::Done, output),
        Err(failed) => Err(failed),
    }
}

/// Writes the text of a simulation by scripts up to their first fault, and flushes.
fn emit_scripted<K: Sink>(
    simulation: Simulation<'_>,
    trace: bool,
    vectors: &Vectors,
    output: &mut K,
) -> Result<Outcome, Failed>
    requires width { (vector : List Bool) → IsIn vector vectors.now.vectors → length vector ≡ simulation.inputs }
    requires short { (script : List WireId) → IsIn script vectors.now.scripts → length script < 2 ^ 32 }
    ensures { Emits (Simulates schedules.Script trace (record { net = simulation.entry; vectors = vectors.now })) (output_of K.taken K.faults K.flushed output.old output.new) result }
{
    match simulation.write_scripted(trace, vectors, output) {
        Ok(fault) => flush_at(ending(fault), output),
        Err(failed) => Err(failed),
    }
}

/// Writes the text of a simulation and flushes. It takes no memory.
fn emit<K: Sink>(
    simulation: Simulation<'_>,
    schedule: Schedule,
    trace: bool,
    vectors: &Vectors,
    output: &mut K,
) -> Result<Outcome, Failed>
    requires width { (vector : List Bool) → IsIn vector vectors.now.vectors → length vector ≡ simulation.inputs }
    requires short { (script : List WireId) → IsIn script vectors.now.scripts → length script < 2 ^ 32 }
    ensures { Emits (Simulates schedule trace (record { net = simulation.entry; vectors = vectors.now })) (output_of K.taken K.faults K.flushed output.old output.new) result }
{
    match schedule {
        Schedule::Order(order) => emit_ordered(simulation, order, trace, vectors, output),
        Schedule::Script => emit_scripted(simulation, trace, vectors, output),
    }
}

/// Carries out `simulate`: reads the whole input, checks the netlist, takes all memory, and writes the text cycle by
/// cycle. The engine's room borrows the netlist, so it is taken here, between reading and writing.
pub(crate) fn simulate<S: Source, K: Sink>(
    alloc: Global,
    schedule: Schedule,
    trace: bool,
    input: &mut S,
    output: &mut K,
) -> Outcome
    ensures { AnswersOrder (orders.Simulate schedule trace) (input_of S.left S.faults input.old input.new) (output_of K.taken K.faults K.flushed output.old output.new) result }
{
    // The laws that the clause rests on, and what a netlist is; these calls do nothing.
    inputs_have_their_form();
    every_order();
    let read = match read_input(alloc, schedule, input) {
        Ok(read) => read,
        Err(outcome) => return outcome,
    };
    let _ = read.net.net().wires();
    let simulation = match Simulation::new(alloc, &read.net) {
        Ok(simulation) => simulation,
        Err(_) => return Outcome::NoMemory,
    };
    match emit(simulation, schedule, trace, &read.vectors, output) {
        Ok(outcome) => outcome,
        Err(_) => Outcome::WriteFault,
    }
}
