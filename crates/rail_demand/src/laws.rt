//! What is true of the needed rails of every graph, and of those of small ones. The functions do
//! nothing: their clauses are the laws.

ghost use Rattle.rail_demand.specs.Examples.{RailsAreJudged};
ghost use Rattle.rail_demand.specs.Laws.{NeededAreInside, DemandsHaveOutputs, DemandsAreClosed};

use aig_core::nodes_have_values;

/// Each needed rail is one of a node of the graph, and a demand has the asked rails of each output and,
/// with each rail, those that it needs at once.
pub fn demands_are_closed()
    ensures inside { NeededAreInside }
    ensures outputs { DemandsHaveOutputs }
    ensures closed { DemandsAreClosed }
{
    nodes_have_values(); // each conjunction is one of the graph's pairs
}

/// What the definitions say of a half adder, of a chain of latches and of a constant.
pub fn examples()
    ensures { RailsAreJudged }
{}
