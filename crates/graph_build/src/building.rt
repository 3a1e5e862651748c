//! The graph of a whole machine.

ghost use Rattle.std.specs.Prelude.{◌≡◌, ◌<◌, ◌≤◌, ◌+◌, ◌⊎◌, [], length, map, All, IfOk, OnOk};
ghost use Rattle.source_machine.specs.Machines.{literal_of, machine_of};
ghost use Rattle.pulse_ids.specs.Lists.{IsIn};
ghost use Rattle.source_machine.specs.Fitting.{Fits, size_of};
ghost use Rattle.source_machine.specs.Grounding.{IsWellFounded};
ghost use Rattle.source_machine.specs.Dependencies.{start_nets};
ghost use Rattle.graph_build.specs.Built.{IsGraphOf};
ghost use Rattle.graph_build.specs.Literals.{node_literal, HasLiterals};
ghost use Rattle.graph_build.specs.Orders.{IsBuilt, IsBuildOrder};

use crate::built::Built;
use crate::equations::equation_literal;
use crate::literals::{node_literal, zero};
use crate::orders::build_order;
use aig_core::Graph;
use pulse_ids::{Lit, NetId, NoMemory, NodeLit, Row};
use source_machine::{Latch, Machine, RawMachine};
use std::alloc::Global;

/// Gives each input net its input of the graph.
fn set_inputs(literals: &mut Row<NetId, NodeLit>, graph: &Graph, raw: &RawMachine)
    requires fits { Fits (machine_of raw.now) }
    requires has { HasLiterals (machine_of raw.now) graph.now literals.old (λ net. net ≡ 0) }
    ensures { HasLiterals (machine_of raw.now) graph.now literals.new (λ net. (net ≡ 0) ⊎ IsIn net (machine_of raw.now).inputs) }
{
    for number in 0..raw.inputs.len() {
        literals.set(raw.inputs[number], graph.input(number as u32));
    }
}

/// Gives the net of each latch its latch of the graph.
fn set_latches(literals: &mut Row<NetId, NodeLit>, graph: &Graph, raw: &RawMachine)
    requires fits { Fits (machine_of raw.now) }
    requires has { HasLiterals (machine_of raw.now) graph.now literals.old (λ net. (net ≡ 0) ⊎ IsIn net (machine_of raw.now).inputs) }
    ensures { HasLiterals (machine_of raw.now) graph.now literals.new (λ net. IsIn net (start_nets (machine_of raw.now))) }
{
    for number in 0..raw.latches.len() {
        literals.set(raw.latches[number].out, graph.latch(number as u32));
    }
}

/// The literals of all nets, those of net 0, of the inputs and of the latches among them.
fn start_literals(
    alloc: Global,
    graph: &Graph,
    raw: &RawMachine,
) -> Result<Row<NetId, NodeLit>, NoMemory>
    requires fits { Fits (machine_of raw.now) }
    requires inputs { graph.now.inputs ≡ length (machine_of raw.now).inputs }
    requires latches { graph.now.latches ≡ length (machine_of raw.now).latches }
    ensures { IfOk result (λ literals. HasLiterals (machine_of raw.now) graph.now literals (λ net. IsIn net (start_nets (machine_of raw.now)))) }
{
    let mut literals = Row::filled(alloc, zero(graph), raw.nets + 1)?;
    set_inputs(&mut literals, graph, raw);
    set_latches(&mut literals, graph, raw);
    Ok(literals)
}

/// Builds the equations in the order.
fn build_equations(
    graph: &mut Graph,
    literals: &mut Row<NetId, NodeLit>,
    raw: &RawMachine,
    order: &[u32],
) -> Result<(), NoMemory>
    requires fits { Fits (machine_of raw.now) }
    requires order { IsBuildOrder (machine_of raw.now) order.now }
    requires bare { graph.old.pairs ≡ [] }
    requires has { HasLiterals (machine_of raw.now) graph.old literals.old (λ net. IsIn net (start_nets (machine_of raw.now))) }
    ensures has { OnOk result (HasLiterals (machine_of raw.now) graph.new literals.new (IsBuilt (machine_of raw.now) order.now)) }
    ensures small { OnOk result (length graph.new.pairs ≤ size_of (machine_of raw.now)) }
{
    for number in order {
        let equation = &raw.equations[*number as usize];
        let literal = equation_literal(graph, literals, equation)?;
        literals.set(equation.net, literal);
    }
    Ok(())
}

/// The literals of the graph for these outputs.
fn output_literals(
    alloc: Global,
    literals: &Row<NetId, NodeLit>,
    outputs: &[Lit],
) -> Result<Vec<NodeLit>, NoMemory>
    requires { All (λ output. output.id.number < length literals.now) outputs.now }
    ensures { IfOk result (λ given. given.items ≡ map (λ literal. node_literal literals.now (literal_of literal)) outputs.now) }
{
    let mut given = Vec::with_capacity(alloc, outputs.len())?;
    for output in outputs {
        given.push(node_literal(literals, *output))?;
    }
    Ok(given)
}

/// The literals of the graph for the next states of these latches.
fn next_literals(
    alloc: Global,
    literals: &Row<NetId, NodeLit>,
    latches: &[Latch],
) -> Result<Vec<NodeLit>, NoMemory>
    requires { All (λ latch. latch.next.id.number < length literals.now) latches.now }
    ensures { IfOk result (λ given. given.items ≡ map (λ latch. node_literal literals.now (literal_of latch.next)) latches.now) }
{
    let mut given = Vec::with_capacity(alloc, latches.len())?;
    for latch in latches {
        given.push(node_literal(literals, latch.next))?;
    }
    Ok(given)
}

/// The first bits of these latches.
fn first_bits(alloc: Global, latches: &[Latch]) -> Result<Vec<bool>, NoMemory>
    ensures { IfOk result (λ bits. bits.items ≡ map (λ latch. latch.init) latches.now) }
{
    let mut bits = Vec::with_capacity(alloc, latches.len())?;
    for latch in latches {
        bits.push(latch.init)?;
    }
    Ok(bits)
}

/// The graph of a machine as read.
fn graph_of(alloc: Global, raw: &RawMachine) -> Result<Built, NoMemory>
    requires fits { Fits (machine_of raw.now) }
    requires founded { IsWellFounded (machine_of raw.now) }
    ensures { IfOk result (λ built. IsGraphOf (machine_of raw.now) built) }
{
    let order = build_order(alloc, raw)?;
    let mut graph = Graph::new(alloc, raw.inputs.len() as u32, raw.latches.len() as u32);
    let mut literals = start_literals(alloc, &graph, raw)?;
    build_equations(&mut graph, &mut literals, raw, order.as_slice())?;
    let _ = graph.len(); // the proof learns that the graph is tidy
    let outputs = output_literals(alloc, &literals, raw.outputs.as_slice())?;
    let nexts = next_literals(alloc, &literals, raw.latches.as_slice())?;
    let inits = first_bits(alloc, raw.latches.as_slice())?;
    Ok(Built {
        graph,
        outputs,
        nexts,
        inits,
    })
}

/// The graph of a machine. Its equations are built one after the other, each time the one of the
/// lowest net among those whose cube nets are all built. A cube is folded from the left, beginning
/// with 1, and the cubes are joined from the left, beginning with 0; the result is complemented where
/// `on` is false. The graph has at most as many conjunctions as the machine has cubes and literals
/// in them, and is shrunk to fit. It takes memory linear in the machine, and time that is linear but
/// for the choice of the lowest net, which takes logarithmic time for each equation.
pub fn build(alloc: Global, machine: &Machine) -> Result<Built, NoMemory>
    ensures { IfOk result (λ built. IsGraphOf machine.now built) }
{
    let mut built = graph_of(alloc, machine.raw())?;
    built.graph.shrink_to_fit();
    Ok(built)
}
