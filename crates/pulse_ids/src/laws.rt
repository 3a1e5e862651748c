//! The codes of the constants.

ghost use Rattle.std.specs.Prelude.{◌≡◌};

use crate::literals::{Lit, NodeLit};

/// The codes of the constants, over nets and over graph nodes: that of `FALSE` is 0, and that of `TRUE` is 1.
pub fn constant_codes() -> ((u32, u32), (u32, u32))
    ensures nets { (result.0.0 ≡ 0) × (result.0.1 ≡ 1) }
    ensures nodes { (result.1.0 ≡ 0) × (result.1.1 ≡ 1) }
{
    (
        (Lit::FALSE.code(), Lit::TRUE.code()),
        (NodeLit::FALSE.code(), NodeLit::TRUE.code()),
    )
}
