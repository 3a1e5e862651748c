//! Graphs: folds and shared pairs, the nodes of small machines in the order of building, and their values beside those
//! of the machine. Literals are written as their codes: twice the net or node, plus 1 for the complement.

ghost use Rattle.std.specs.Prelude.{◌≡◌, ◌/◌};

use crate::building::{Plan, bits_of, machine};
use crate::circuits::{CUBES, HALF_ADDER};
use aig_core::{Graph, Node};
use graph_build::{Built, build};
use pulse_ids::{Ident, NoMemory, NodeId, NodeLit};
use source_machine::{Machine, Values, step};
use std::alloc::Global;
use std::test::Fail;

/// The literal of this code.
fn literal(code: u32) -> NodeLit
    ensures { result.id.number ≡ code / 2 }
{
    NodeLit::new(NodeId::new(code / 2), code % 2 == 1)
}

/// Codes of two literals and of the answer, and the length of the graph after the call. The graph begins with two
/// inputs, of codes 2 and 4, and a latch, of code 6.
const CALLS: [(u32, u32, u32, u32); 26] = [
    (0, 2, 0, 4),
    (2, 0, 0, 4),
    (0, 3, 0, 4),
    (3, 0, 0, 4),
    (0, 0, 0, 4),
    (0, 1, 0, 4),
    (1, 0, 0, 4),
    (1, 2, 2, 4),
    (2, 1, 2, 4),
    (1, 3, 3, 4),
    (3, 1, 3, 4),
    (1, 1, 1, 4),
    (4, 4, 4, 4),
    (5, 5, 5, 4),
    (4, 5, 0, 4),
    (5, 4, 0, 4),
    (4, 2, 8, 5),
    (4, 2, 8, 5),
    (2, 4, 8, 5),
    (4, 3, 10, 6),
    (3, 4, 10, 6),
    (2, 5, 12, 7),
    (9, 11, 14, 8),
    (11, 9, 14, 8),
    (6, 8, 16, 9),
    (6, 9, 18, 10),
];

#[test]
fn conjunctions_are_folded_and_shared(rt: HostRuntime) -> Result<(), Fail> {
    let mut graph = Graph::new(rt.alloc(), 2, 1);
    for (a, b, answer, len) in CALLS {
        let before = graph.len();
        assert!(rt; before < 262_144 && a / 2 < before && b / 2 < before);
        let given = graph.and(literal(a), literal(b))?;
        assert_eq!(rt; (given, graph.len()), (literal(answer), len), "at {a} {b}");
    }
    Ok(())
}

#[test]
fn nodes_are_read(rt: HostRuntime) -> Result<(), Fail> {
    let mut graph = Graph::new(rt.alloc(), 2, 1);
    assert_eq!(rt; graph.len(), 4);
    assert_eq!(rt; graph.node(NodeId::new(0)), Node::False);
    assert_eq!(rt; graph.node(graph.input(1).node()), Node::Input(1));
    assert_eq!(rt; graph.node(graph.latch(0).node()), Node::Latch(0));
    let both = graph.and(literal(4), literal(2))?;
    assert_eq!(rt; graph.node(both.node()), Node::And(literal(2), literal(4)));
    Ok(())
}

#[test]
fn pairs_are_found_without_their_index(rt: HostRuntime) -> Result<(), Fail> {
    let mut graph = Graph::new(rt.alloc(), 2, 1);
    let first = graph.and(literal(2), literal(4))?;
    let second = graph.and(literal(3), literal(4))?;
    graph.shrink_to_fit();
    assert_eq!(rt; graph.len(), 6);
    assert_eq!(rt;
        graph.node(second.node()),
        Node::And(literal(3), literal(4))
    );
    assert_eq!(rt; graph.and(literal(4), literal(3))?, second);
    assert_eq!(rt; graph.and(literal(4), literal(2))?, first);
    assert_eq!(rt; graph.and(literal(4), literal(6))?, literal(12));
    graph.shrink_to_fit();
    graph.shrink_to_fit();
    assert_eq!(rt; graph.and(literal(6), literal(4))?, literal(12));
    assert_eq!(rt; graph.len(), 7);
    Ok(())
}

/// A machine with the number of nodes of its graph and the codes of its outputs.
#[derive(Clone, Copy)]
struct Case<'a> {
    plan: Plan<'a>,
    nodes: u32,
    found: &'a [u32],
}

/// The bit of a literal of a node, by the bits of the nodes.
fn bit_of(bits: &[bool], literal: NodeLit) -> bool {
    match bits.get(literal.node().number() as usize) {
        Some(bit) => *bit != literal.negated(),
        None => false,
    }
}

/// The bits of all nodes of a graph.
fn node_bits(
    alloc: Global,
    graph: &Graph,
    state: &[bool],
    vector: &[bool],
) -> Result<Vec<bool>, NoMemory> {
    let mut bits = Vec::new(alloc);
    for number in 0..graph.len() {
        let bit = match graph.node(NodeId::new(number)) {
            Node::False => false,
            Node::Input(k) => vector.get(k as usize) == Some(&true),
            Node::Latch(k) => state.get(k as usize) == Some(&true),
            Node::And(low, high) => bit_of(&bits, low) && bit_of(&bits, high),
        };
        bits.push(bit)?;
    }
    Ok(bits)
}

/// Whether graph and machine have the same outputs and next states for one state and vector.
fn is_same(
    alloc: Global,
    machine: &Machine,
    built: &Built,
    state: &mut [bool],
    vector: &[bool],
) -> Result<bool, NoMemory> {
    let raw = machine.raw();
    if state.len() != raw.latches.len() || vector.len() != raw.inputs.len() {
        return Ok(false);
    }
    let bits = node_bits(alloc, built.graph(), state, vector)?;
    let mut room = Values::new(alloc, machine)?;
    step(machine, state, vector, &mut room);
    for k in 0..built.outputs() {
        let Some(output) = raw.outputs.get(k as usize) else {
            return Ok(false);
        };
        if raw.nets < output.net().number()
            || room.value(*output) != bit_of(&bits, built.output(k))
        {
            return Ok(false);
        }
    }
    for k in 0..built.latches() {
        if state.get(k as usize) != Some(&bit_of(&bits, built.next(k))) {
            return Ok(false);
        }
    }
    Ok(true)
}

/// Whether graph and machine are the same for all states and vectors.
fn is_always_same(alloc: Global, machine: &Machine, built: &Built) -> Result<bool, NoMemory> {
    let raw = machine.raw();
    for state in 0..4u16 {
        for vector in 0..8u16 {
            let mut state = bits_of(alloc, state, raw.latches.len())?;
            let vector = bits_of(alloc, vector, raw.inputs.len())?;
            if !is_same(alloc, machine, built, &mut state, &vector)? {
                return Ok(false);
            }
        }
    }
    Ok(true)
}

/// The codes of the outputs of a graph.
fn codes(alloc: Global, built: &Built) -> Result<Vec<u32>, NoMemory> {
    let mut codes = Vec::new(alloc);
    for k in 0..built.outputs() {
        let literal = built.output(k);
        codes.push(2 * literal.node().number() + literal.negated() as u32)?;
    }
    Ok(codes)
}

/// Two inputs, and no latches.
fn gates<'a>(sums: &'a [(u16, bool, &'a [&'a [u16]])], outputs: &'a [u16]) -> Plan<'a> {
    Plan {
        nets: 9,
        inputs: &[1, 2],
        latches: &[],
        sums,
        outputs,
    }
}

#[test]
fn graphs_have_the_machines_values(rt: HostRuntime) -> Result<(), Fail> {
    let alloc = rt.alloc();
    let cases = [
        Case {
            plan: HALF_ADDER,
            nodes: 6,
            found: &[10, 6],
        },
        Case {
            plan: CUBES,
            nodes: 10,
            found: &[15, 18, 0, 1, 1, 0, 0, 1, 5],
        },
        Case {
            plan: Plan {
                nets: 5,
                inputs: &[1],
                latches: &[(4, true, 10), (3, false, 7)],
                sums: &[(5, true, &[&[8, 3], &[9, 2]])],
                outputs: &[8, 6],
            },
            nodes: 7,
            found: &[4, 6],
        },
        Case {
            plan: gates(&[(3, true, &[&[2, 3]])], &[6]),
            nodes: 3,
            found: &[0],
        },
    ];
    for case in &cases {
        let machine = machine(alloc, &case.plan)?;
        let built = build(alloc, &machine)?;
        assert_eq!(rt; built.graph().len(), case.nodes);
        assert_eq!(rt; codes(alloc, &built)?.as_slice(), case.found);
        assert!(rt; is_always_same(alloc, &machine, &built)?);
        for k in 0..built.latches() {
            let init = case.plan.latches.get(k as usize).map(|latch| latch.1);
            assert!(rt; init == Some(built.init(k)));
        }
    }
    Ok(())
}

#[test]
fn lowest_nets_are_built_first(rt: HostRuntime) -> Result<(), Fail> {
    let alloc = rt.alloc();
    let cases = [
        // written last to first
        Case {
            plan: gates(&[(5, true, &[&[2, 5]]), (4, true, &[&[2, 4]])], &[8, 11]),
            nodes: 5,
            found: &[6, 9],
        },
        // a lower net that is ready later
        Case {
            plan: gates(
                &[
                    (4, true, &[&[11, 3]]),
                    (6, true, &[&[3, 5]]),
                    (5, true, &[&[2, 4]]),
                ],
                &[10, 8, 12],
            ),
            nodes: 6,
            found: &[6, 8, 10],
        },
        // each reads the next one
        Case {
            plan: gates(
                &[
                    (5, true, &[&[8, 2]]),
                    (4, true, &[&[6, 3]]),
                    (3, true, &[&[4, 2]]),
                ],
                &[6, 8, 10],
            ),
            nodes: 6,
            found: &[6, 8, 10],
        },
    ];
    for case in &cases {
        let built = build(alloc, &machine(alloc, &case.plan)?)?;
        assert_eq!(rt; built.graph().len(), case.nodes);
        assert_eq!(rt; codes(alloc, &built)?.as_slice(), case.found);
    }
    Ok(())
}
