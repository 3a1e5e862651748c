//! The conjunctions of one equation.

ghost use Rattle.std.specs.Prelude.{◌<◌, ◌≤◌, ◌+◌, ◌||◌, length, map, All, IfOk};
ghost use Rattle.std.specs.List.{list_any};
ghost use Rattle.aig_core.specs.Graphs.{count_of};
ghost use Rattle.aig_core.specs.Values.{value_of};
ghost use Rattle.source_machine.specs.Machines.{literal_of, equation_of};
ghost use Rattle.source_machine.specs.Fitting.{size_of_cubes};
ghost use Rattle.source_machine.specs.Runs.{cube_value, equation_value};
ghost use Rattle.graph_build.specs.Literals.{net_value, AllWithin};
ghost use Rattle.graph_build.specs.Equations.{IsLiteralOf};
ghost use Rattle.pulse_ids.specs.Quantities.{greatest_of};
ghost use Rattle.pulse_ids.specs.declared.quantities.Quantity.TheVariants.{Size};

use crate::literals::{node_literal, one, zero};
use aig_core::Graph;
use pulse_ids::{Lit, NetId, NoMemory, NodeLit, Row};
use source_machine::{Cover, Equation};

/// The conjunction of a cube's literals, folded from the left.
pub(crate) fn cube_literal(
    graph: &mut Graph,
    literals: &Row<NetId, NodeLit>,
    cube: &[Lit],
) -> Result<NodeLit, NoMemory>
    requires within { AllWithin graph.old literals.now }
    requires fit { All (λ literal. literal.id.number < length literals.now) cube.now }
    requires room { length graph.old.pairs + length cube.now ≤ greatest_of Size }
    ensures { IfOk result (λ literal. IsLiteralOf (length cube.now) graph.old graph.new
        (λ state vector. cube_value (net_value graph.old literals.now state vector) (map literal_of cube.now)) literal) }
{
    let mut conjunction = one(graph);
    for literal in cube {
        conjunction = graph.and(conjunction, node_literal(literals, *literal))?;
    }
    Ok(conjunction)
}

/// The disjunction of two literals: the complement of the conjunction of their complements.
fn either(graph: &mut Graph, a: NodeLit, b: NodeLit) -> Result<NodeLit, NoMemory>
    requires a { a.id.number < count_of graph.old }
    requires b { b.id.number < count_of graph.old }
    requires room { length graph.old.pairs < greatest_of Size }
    ensures { IfOk result (λ literal. IsLiteralOf 1 graph.old graph.new (λ state vector. value_of graph.old state vector a || value_of graph.old state vector b) literal) }
{
    let neither = graph.and(a.flip(), b.flip())?;
    Ok(neither.flip())
}

/// The disjunction of the cubes, joined from the left.
fn cubes_literal(
    graph: &mut Graph,
    literals: &Row<NetId, NodeLit>,
    cubes: &[Cover],
) -> Result<NodeLit, NoMemory>
    requires within { AllWithin graph.old literals.now }
    requires fit { All (λ cube. All (λ literal. literal.id.number < length literals.now) cube) cubes.now }
    requires room { length graph.old.pairs + size_of_cubes (map (map literal_of) cubes.now) ≤ greatest_of Size }
    ensures { IfOk result (λ literal. IsLiteralOf (size_of_cubes (map (map literal_of) cubes.now)) graph.old graph.new
        (λ state vector. list_any (cube_value (net_value graph.old literals.now state vector)) (map (map literal_of) cubes.now)) literal) }
{
    let mut disjunction = zero(graph);
    for cube in cubes {
        let conjunction = cube_literal(graph, literals, cube.literals())?;
        disjunction = either(graph, disjunction, conjunction)?;
    }
    Ok(disjunction)
}

/// The literal of an equation's value: the disjunction of its cubes, or the complement where `on` is
/// false.
pub(crate) fn equation_literal(
    graph: &mut Graph,
    literals: &Row<NetId, NodeLit>,
    equation: &Equation,
) -> Result<NodeLit, NoMemory>
    requires within { AllWithin graph.old literals.now }
    requires fit { All (λ cube. All (λ literal. literal.id.number < length literals.now) cube) equation.now.rows.items }
    requires room { length graph.old.pairs + size_of_cubes (equation_of equation.now).cubes ≤ greatest_of Size }
    ensures { IfOk result (λ literal. IsLiteralOf (size_of_cubes (equation_of equation.now).cubes) graph.old graph.new
        (λ state vector. equation_value (net_value graph.old literals.now state vector) (equation_of equation.now)) literal) }
{
    let disjunction = cubes_literal(graph, literals, equation.rows.as_slice())?;
    if equation.on {
        Ok(disjunction)
    } else {
        Ok(disjunction.flip())
    }
}
