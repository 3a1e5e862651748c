//! What is true of every graph, of every tidy one, and of a small one. The functions do nothing: their
//! clauses are the laws.

ghost use Rattle.aig_core.specs.Examples.{AddsTwoBits, TidyIsJudged, FoldsAreJudged};
ghost use Rattle.aig_core.specs.Laws.{NodeZeroIsConstant, InputsFollow, LatchesFollow, ConjunctionsAreLast, NodesAreCounted, ConjunctionsArePairs, NodesHaveTheirBits};

/// Which node stands at which number: the constant at 0 and only there, then the inputs, the latches
/// and the conjunctions in their order, each at its own number and only there.
pub fn nodes_have_places()
    ensures constant { NodeZeroIsConstant }
    ensures inputs { InputsFollow }
    ensures latches { LatchesFollow }
    ensures conjunctions { ConjunctionsAreLast }
    ensures count { NodesAreCounted }
{}

/// Each conjunction among the nodes of a graph is one of its pairs, and each node of a tidy graph has
/// the bit of what it stands for.
pub fn nodes_have_values()
    ensures pairs { ConjunctionsArePairs }
    ensures bits { NodesHaveTheirBits }
{}

/// What the definitions of values, tidiness and folds say of a half adder.
pub fn examples()
    ensures half_adder { AddsTwoBits }
    ensures tidy { TidyIsJudged }
    ensures folds { FoldsAreJudged }
{}
