//! What is true of every machine and its graph, and of small ones. The functions do nothing: their
//! clauses are the laws.

ghost use Rattle.graph_build.specs.Examples.{GraphsAreJudged, OrdersAreJudged};
ghost use Rattle.graph_build.specs.Laws.{GraphsRunAlike};

/// Over whole runs: in each cycle the outputs of a machine's graph have the bits of the machine's, at
/// the state that the next literals have led to from the latches' first bits.
pub fn graphs_run_alike()
    ensures { GraphsRunAlike }
{}

/// What the definitions of the graph of a machine and of the order of building say of a half adder
/// and of a toggle flip-flop.
pub fn examples()
    ensures graphs { GraphsAreJudged }
    ensures orders { OrdersAreJudged }
{
    aig_core::examples(); // the half adder's graph is tidy
}
