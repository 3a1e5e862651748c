//! Commands in two halves.

ghost use Rattle.std.specs.Prelude.{◌≡◌, ℕ, List};
ghost use Rattle.xsfq_cli.specs.declared.orders.Order.{Order};
ghost use Rattle.run_outcomes.specs.declared.outcomes.Outcome.{Outcome};
ghost use Rattle.xsfq_cli.specs.Halves.{Emits, Prepares};
ghost use Rattle.xsfq_cli.specs.Table.{AnswersOrder, input_of, output_of};

use byte_ports::{Failed, Sink, Source};
use run_outcomes::Outcome;
use std::alloc::Global;

/// A command in two halves. The first takes all memory and never sees the output; the second never sees the
/// allocator. So nothing is written where memory is refused.
pub(crate) trait Command {
    /// What the first half hands to the second.
    type Task: Drop;

    /// The order that it carries out.
    ghost order: { Self → Order };

    /// Its numbers are in range.
    ghost ready: { Self → Type 0 };

    /// A text that a task may write, and the outcome where the output takes all of it.
    ghost tells: { Self.Task → List ℕ → Outcome → Type 0 };

    /// Reads the input, where the command has one, and makes the task.
    fn prepare<S: Source>(self, alloc: Global, input: &mut S) -> Result<Self::Task, Outcome>
        requires { ready self }
        ensures { Prepares (order self) (input_of S.left S.faults input.old input.new) tells result };

    /// Writes the text of the task whole, flushes, and answers the text's outcome.
    fn write<K: Sink>(task: Self::Task, output: &mut K) -> Result<Outcome, Failed>
        ensures { Emits (tells task) (output_of K.taken K.faults K.flushed output.old output.new) result };
}

/// Carries out a command.
pub(crate) fn perform<C: Command, S: Source, K: Sink>(
    command: C,
    alloc: Global,
    input: &mut S,
    output: &mut K,
) -> Outcome
    requires { C.ready command }
    ensures { AnswersOrder (C.order command) (input_of S.left S.faults input.old input.new) (output_of K.taken K.faults K.flushed output.old output.new) result }
{
    match command.prepare(alloc, input) {
        Ok(task) => match C::write(task, output) {
            Ok(outcome) => outcome,
            Err(_) => Outcome::WriteFault,
        },
        Err(outcome) => outcome,
    }
}
