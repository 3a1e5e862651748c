//! Small machines that fit or not, are accepted or refused, and are stepped.

use crate::building::{Plan, Sum, bits_of, literal, machine};
use crate::circuits::{COUNTER, CUBES};
use pulse_ids::{Ident, Lit, Name, NetId, NoMemory};
use source_machine::{Cover, Grounding, Machine, RawMachine, Unset, Values, step};
use std::alloc::Global;
use std::test::Fail;

#[test]
fn a_cover_grows_past_four_literals(rt: HostRuntime) -> Result<(), Fail> {
    let mut cover = Cover::new(rt.alloc());
    assert!(rt; cover.is_empty());
    for code in [14, 7, 18, 6, 11] {
        if cover.len() < 5 {
            cover.push(literal(code))?;
        }
    }
    assert_eq!(rt; cover.len(), 5);
    assert_eq!(rt;
        cover.literals(),
        [
            literal(14),
            literal(7),
            literal(18),
            literal(6),
            literal(11)
        ]
        .as_slice()
    );
    Ok(())
}

/// A machine of one output and no names but this one.
fn named(alloc: Global, nets: u32, name: &[u8]) -> Result<RawMachine, NoMemory> {
    let mut output_names = Vec::new(alloc);
    output_names.push(Some(Name::new(alloc, name)?))?;
    Ok(RawMachine {
        nets,
        inputs: Vec::new(alloc),
        latches: Vec::new(alloc),
        equations: Vec::new(alloc),
        outputs: Vec::from_slice(alloc, &[Lit::new(NetId::new(3), false)])?,
        input_names: Vec::new(alloc),
        output_names,
    })
}

#[test]
fn small_machines_fit_or_not(rt: HostRuntime) -> Result<(), Fail> {
    let cases: [(u32, &[u8], bool); 7] = [
        (3, b"out", true),
        (2, b"out", false),
        (524_288, b"out", true),
        (524_289, b"out", false),
        (3, b"o\n", false),
        (3, &[b'n'; 1023], true),
        (3, &[b'n'; 1024], false),
    ];
    for (nets, name, fits) in cases {
        assert!(rt; named(rt.alloc(), nets, name)?.fits() == fits);
    }
    Ok(())
}

/// Equations that copy nets, as the code of the net and that of the one that is read, a latch as its net and the code
/// of its next state, an output, and the refusal.
#[derive(Clone, Copy)]
struct Case<'a> {
    inputs: &'a [u16],
    latches: &'a [(u16, bool, u16)],
    sums: &'a [Sum<'a>],
    output: u16,
    refusal: Option<Grounding>,
}

fn refusal_of(alloc: Global, case: &Case<'_>) -> Option<Grounding> {
    let plan = Plan {
        nets: 12,
        inputs: case.inputs,
        latches: case.latches,
        sums: case.sums,
        outputs: &[case.output],
    };
    machine(alloc, &plan).err()
}

#[test]
fn machines_are_accepted(rt: HostRuntime) -> Result<(), Fail> {
    let cases = [
        Case {
            inputs: &[],
            latches: &[],
            sums: &[],
            output: 0,
            refusal: None,
        },
        Case {
            inputs: &[],
            latches: &[(1, false, 2)],
            sums: &[],
            output: 2,
            refusal: None,
        },
        Case {
            inputs: &[],
            latches: &[(1, false, 0)],
            sums: &[(2, true, &[&[0]])],
            output: 0,
            refusal: None,
        },
        Case {
            inputs: &[1],
            latches: &[],
            sums: &[(4, true, &[&[6]]), (3, true, &[&[4]]), (2, true, &[&[2]])],
            output: 8,
            refusal: None,
        },
    ];
    for case in &cases {
        assert!(rt; refusal_of(rt.alloc(), case) == case.refusal);
    }
    Ok(())
}

#[test]
fn machines_are_refused_with_the_lowest_faulty_net(rt: HostRuntime) -> Result<(), Fail> {
    let one = NetId::new(1);
    let two = NetId::new(2);
    let cases = [
        Case {
            inputs: &[],
            latches: &[],
            sums: &[(4, true, &[&[4]]), (2, true, &[&[8]])],
            output: 0,
            refusal: Some(Grounding::Cycle(two)),
        },
        Case {
            inputs: &[],
            latches: &[],
            sums: &[(1, true, &[&[4]]), (2, true, &[&[2]])],
            output: 2,
            refusal: Some(Grounding::Cycle(one)),
        },
        Case {
            inputs: &[],
            latches: &[],
            sums: &[(4, true, &[&[6]]), (3, true, &[&[8]]), (2, true, &[&[8]])],
            output: 0,
            refusal: Some(Grounding::Cycle(two)),
        },
        Case {
            inputs: &[1],
            latches: &[],
            sums: &[(1, true, &[&[0]])],
            output: 0,
            refusal: Some(Grounding::DoubleDriver(one)),
        },
        Case {
            inputs: &[1, 1],
            latches: &[],
            sums: &[(2, true, &[&[6]])],
            output: 0,
            refusal: Some(Grounding::DoubleDriver(one)),
        },
        Case {
            inputs: &[],
            latches: &[],
            sums: &[(2, true, &[&[2]])],
            output: 6,
            refusal: Some(Grounding::Undriven(one)),
        },
        Case {
            inputs: &[],
            latches: &[(1, false, 6)],
            sums: &[],
            output: 8,
            refusal: Some(Grounding::Undriven(NetId::new(3))),
        },
        Case {
            inputs: &[],
            latches: &[],
            sums: &[(1, true, &[&[2]])],
            output: 8,
            refusal: Some(Grounding::Undriven(NetId::new(4))),
        },
    ];
    for case in &cases {
        assert!(rt; refusal_of(rt.alloc(), case) == case.refusal);
    }
    Ok(())
}

/// One cycle, and the value of a literal in it, or none where a width or the net doesn't fit.
fn cycle(
    alloc: Global,
    machine: &Machine,
    state: &mut [bool],
    inputs: &[bool],
    seen: Lit,
) -> Result<Option<bool>, NoMemory> {
    let raw = machine.raw();
    if state.len() != raw.latches.len()
        || inputs.len() != raw.inputs.len()
        || raw.nets < seen.net().number()
    {
        return Ok(None);
    }
    let mut room = Values::new(alloc, machine)?;
    step(machine, state, inputs, &mut room);
    Ok(Some(room.value(seen)))
}

fn number(bits: [bool; 4]) -> u8 {
    let [one, two, four, eight] = bits;
    one as u8 + 2 * two as u8 + 4 * four as u8 + 8 * eight as u8
}

#[test]
fn a_counter_counts_and_holds(rt: HostRuntime) -> Result<(), Fail> {
    let alloc = rt.alloc();
    let counter = machine(alloc, &COUNTER)?;
    let mut state = [false; 4];
    for count in 0..17u8 {
        assert_eq!(rt; number(state), count % 16);
        let odd = cycle(alloc, &counter, &mut state, &[true], literal(4))?;
        assert!(rt; odd == Some(count % 2 == 1));
    }
    let held = cycle(alloc, &counter, &mut state, &[false], literal(19))?;
    assert!(rt; held == Some(false));
    assert_eq!(rt; number(state), 1);
    Ok(())
}

/// The values of the outputs of `CUBES`, by its inputs as the bits of a number.
const CUBE_VALUES: [(u16, [bool; 9]); 8] = [
    (0, [true, true, false, true, true, false, false, true, true]),
    (1, [true, true, false, true, true, false, false, true, true]),
    (
        2,
        [false, true, false, true, true, false, false, true, false],
    ),
    (
        3,
        [false, false, false, true, true, false, false, true, false],
    ),
    (
        4,
        [false, false, false, true, true, false, false, true, true],
    ),
    (
        5,
        [false, true, false, true, true, false, false, true, true],
    ),
    (
        6,
        [false, false, false, true, true, false, false, true, false],
    ),
    (
        7,
        [true, false, false, true, true, false, false, true, false],
    ),
];

#[test]
fn cubes_have_values(rt: HostRuntime) -> Result<(), Fail> {
    let alloc = rt.alloc();
    let machine = machine(alloc, &CUBES)?;
    for (vector, values) in CUBE_VALUES {
        let inputs = bits_of(alloc, vector, 3)?;
        let mut outputs = CUBES.outputs.iter();
        for value in values {
            let Some(code) = outputs.next() else {
                return Ok(());
            };
            let found = cycle(alloc, &machine, &mut [], &inputs, literal(*code))?;
            assert!(rt; found == Some(value), "at {vector} {code}");
        }
    }
    Ok(())
}

#[test]
fn unset_latches_begin_as_chosen(rt: HostRuntime) -> Result<(), Fail> {
    for (unset, bit) in [
        (Unset::Refuse, None),
        (Unset::Zero, Some(false)),
        (Unset::One, Some(true)),
    ] {
        assert!(rt; unset.first_bit() == bit);
    }
    Ok(())
}
