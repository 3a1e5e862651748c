//! The four conjunctions that are no node of their own.

ghost use Rattle.std.specs.Prelude.{◌≡◌};
ghost use Rattle.aig_core.specs.Folds.{fold_of};

use pulse_ids::NodeLit;

/// The literal to which the conjunction of `a` and `b` folds, where it folds: with the constant 0 to
/// 0, with the constant 1 to the other literal, with itself to itself, and with its complement to 0.
pub(crate) fn folded(a: NodeLit, b: NodeLit) -> Option<NodeLit>
    ensures { result ≡ fold_of a b }
{
    if a == NodeLit::FALSE || b == NodeLit::FALSE || a == b.flip() {
        Some(NodeLit::FALSE)
    } else if a == NodeLit::TRUE || a == b {
        Some(b)
    } else if b == NodeLit::TRUE {
        Some(a)
    } else {
        None
    }
}
