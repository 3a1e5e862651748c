//! The literals of a machine's nets in a graph.

ghost use Rattle.std.specs.Prelude.{◌≡◌, ◌<◌, List, Bool, true, false, length};
ghost use Rattle.aig_core.specs.Folds.{zero_literal, one_literal};
ghost use Rattle.aig_core.specs.Graphs.{count_of};
ghost use Rattle.aig_core.specs.Values.{value_of};
ghost use Rattle.source_machine.specs.Machines.{literal_of};
ghost use Rattle.graph_build.specs.Literals.{node_literal};

use aig_core::{Graph, nodes_have_values};
use pulse_ids::{Lit, NetId, NodeLit, Row};

/// The constant 0 as a literal of a graph.
pub(crate) fn zero(graph: &Graph) -> NodeLit
    ensures literal { result ≡ zero_literal }
    ensures within { result.id.number < count_of graph.now }
    ensures value { (state vector : List Bool) → value_of graph.now state vector result ≡ false }
{
    nodes_have_values(); // the law that node 0 has the bit 0
    let _ = graph.len(); // the proof learns that the graph is tidy
    NodeLit::FALSE
}

/// The constant 1 as a literal of a graph.
pub(crate) fn one(graph: &Graph) -> NodeLit
    ensures literal { result ≡ one_literal }
    ensures within { result.id.number < count_of graph.now }
    ensures value { (state vector : List Bool) → value_of graph.now state vector result ≡ true }
{
    zero(graph).flip()
}

/// The literal of a net, or its complement where the net is negated.
pub(crate) fn node_literal(literals: &Row<NetId, NodeLit>, literal: Lit) -> NodeLit
    requires { literal.id.number < length literals.now }
    ensures { result ≡ node_literal literals.now (literal_of literal) }
{
    let node = *literals.get(literal.net());
    if literal.negated() { node.flip() } else { node }
}
