//! Plans of machines that several tests share.

use crate::building::{Plan, Sum};

/// The sum and the carry of inputs 1 and 2, nets 3 and 6.
pub(crate) const HALF_ADDER: Plan<'static> = Plan {
    nets: 7,
    inputs: &[1, 2],
    latches: &[],
    sums: HALF_ADDER_SUMS,
    outputs: &[6, 12],
};

const HALF_ADDER_SUMS: &[Sum<'static>] = &[
    (3, true, &[&[13, 15]]),
    (6, true, &[&[2, 4]]),
    (7, true, &[&[3, 5]]),
];

/// A counter of four bits, nets 2 to 5, that counts where net 1 is 1. Each equation stands before those whose nets
/// it reads.
pub(crate) const COUNTER: Plan<'static> = Plan {
    nets: 12,
    inputs: &[1],
    latches: &[
        (2, false, 18),
        (3, false, 20),
        (4, false, 22),
        (5, false, 24),
    ],
    sums: &[
        (12, true, &[&[10, 17], &[11, 16]]),
        (11, true, &[&[8, 15], &[9, 14]]),
        (10, true, &[&[6, 13], &[7, 12]]),
        (9, true, &[&[4, 3], &[5, 2]]),
        (8, true, &[&[8, 14]]),
        (7, true, &[&[6, 12]]),
        (6, true, &[&[4, 2]]),
    ],
    outputs: &[4, 6, 8, 10],
};

/// Cubes of several lengths, equations of each `on`, and equations without cubes or literals.
pub(crate) const CUBES: Plan<'static> = Plan {
    nets: 9,
    inputs: &[1, 2, 3],
    latches: &[],
    sums: &[
        (4, true, &[&[2, 4, 6], &[5, 7]]),
        (5, false, &[&[2, 4], &[3, 6]]),
        (6, true, &[]),
        (7, false, &[]),
        (8, true, &[&[]]),
        (9, false, &[&[4], &[]]),
    ],
    outputs: &[8, 10, 12, 14, 16, 18, 0, 1, 5],
};
