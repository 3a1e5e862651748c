//! The needed rails of small machines.

use crate::building::{Plan, machine};
use crate::circuits::HALF_ADDER;
use cell_netlist::Ask;
use graph_build::build;
use pulse_ids::Sign::{self, Neg, Pos};
use pulse_ids::{Ident, NodeId};
use rail_demand::demand;
use std::alloc::Global;
use std::test::Fail;

/// The nodes and signs of the needed rails of the machine's graph.
fn rails(alloc: Global, plan: &Plan<'_>, ask: Ask) -> Result<Vec<(u32, Sign)>, Fail> {
    let built = build(alloc, &machine(alloc, plan)?)?;
    let needed = demand(alloc, &built, ask)?;
    let mut rails = Vec::new(alloc);
    for number in 0..built.graph().len() {
        for sign in [Pos, Neg] {
            if needed.needs(NodeId::new(number), sign) {
                rails.push((number, sign))?;
            }
        }
    }
    Ok(rails)
}

/// A machine, an ask and the needed rails.
#[derive(Clone, Copy)]
struct Case<'a> {
    plan: Plan<'a>,
    ask: Ask,
    rails: &'a [(u32, Sign)],
}

/// Two inputs, and these latches.
fn latches<'a>(latches: &'a [(u16, bool, u16)], outputs: &'a [u16]) -> Plan<'a> {
    Plan {
        nets: 7,
        inputs: &[1, 2],
        latches,
        sums: &[],
        outputs,
    }
}

#[test]
fn needed_rails_are_found(rt: HostRuntime) -> Result<(), Fail> {
    let cases = [
        Case {
            plan: HALF_ADDER,
            ask: Ask::Pos,
            rails: &[
                (1, Pos),
                (1, Neg),
                (2, Pos),
                (2, Neg),
                (3, Pos),
                (3, Neg),
                (4, Neg),
                (5, Pos),
            ],
        },
        Case {
            plan: HALF_ADDER,
            ask: Ask::Neg,
            rails: &[
                (1, Pos),
                (1, Neg),
                (2, Pos),
                (2, Neg),
                (3, Pos),
                (3, Neg),
                (4, Pos),
                (5, Neg),
            ],
        },
        // a latch that nothing reads
        Case {
            plan: latches(&[(3, false, 4)], &[2]),
            ask: Ask::Pos,
            rails: &[(1, Pos)],
        },
        // a latch of 0, which another one holds next
        Case {
            plan: latches(&[(3, false, 0), (4, false, 6)], &[9]),
            ask: Ask::Pos,
            rails: &[(0, Pos), (3, Pos), (4, Neg)],
        },
        // a ring of two latches
        Case {
            plan: latches(&[(3, false, 9), (4, false, 6)], &[6]),
            ask: Ask::Pos,
            rails: &[(3, Pos), (4, Neg)],
        },
    ];
    for case in &cases {
        let found = rails(rt.alloc(), &case.plan, case.ask)?;
        assert_eq!(rt; found.as_slice(), case.rails);
    }
    Ok(())
}

#[test]
fn constants_are_rails_of_node_0(rt: HostRuntime) -> Result<(), Fail> {
    let alloc = rt.alloc();
    let folded = Plan {
        nets: 3,
        inputs: &[1, 2],
        latches: &[],
        sums: &[(3, true, &[&[2, 3]])],
        outputs: &[6],
    };
    for (ask, zero, one) in [
        (Ask::Pos, [(0, Pos)].as_slice(), [(0, Neg)].as_slice()),
        (Ask::Neg, [(0, Neg)].as_slice(), [(0, Pos)].as_slice()),
        (
            Ask::Both,
            [(0, Pos), (0, Neg)].as_slice(),
            [(0, Pos), (0, Neg)].as_slice(),
        ),
    ] {
        assert_eq!(rt; rails(alloc, &latches(&[], &[0]), ask)?.as_slice(), zero);
        assert_eq!(rt; rails(alloc, &latches(&[], &[1]), ask)?.as_slice(), one);
        assert_eq!(rt; rails(alloc, &folded, ask)?.as_slice(), zero);
    }
    Ok(())
}
