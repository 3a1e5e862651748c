//! Machines by short tables. A literal is written as its code: twice the net, plus 1 for the complement.

use pulse_ids::{Ident, Lit, NetId, NoMemory};
use source_machine::{Cover, Equation, Grounding, Latch, Machine, RawMachine, ground};
use std::alloc::Global;

/// An equation: its net, whether it is 1 where a cube is met, and its cubes of at most four literals.
pub(crate) type Sum<'a> = (u16, bool, &'a [&'a [u16]]);

/// A machine without names.
#[derive(Clone, Copy)]
pub(crate) struct Plan<'a> {
    pub(crate) nets: u16,
    /// The nets of the inputs.
    pub(crate) inputs: &'a [u16],
    /// The net, the first bit and the next state of each latch.
    pub(crate) latches: &'a [(u16, bool, u16)],
    pub(crate) sums: &'a [Sum<'a>],
    pub(crate) outputs: &'a [u16],
}

/// The literal of this code.
pub(crate) fn literal(code: u16) -> Lit {
    Lit::new(NetId::new((code / 2) as u32), code % 2 == 1)
}

fn cube(alloc: Global, codes: &[u16]) -> Result<Cover, NoMemory> {
    let mut cube = Cover::new(alloc);
    for code in codes {
        if cube.len() < 4 {
            cube.push(literal(*code))?;
        }
    }
    Ok(cube)
}

fn equation(alloc: Global, sum: Sum<'_>) -> Result<Equation, NoMemory> {
    let (net, on, cubes) = sum;
    let mut rows = Vec::new(alloc);
    for codes in cubes {
        rows.push(cube(alloc, *codes)?)?;
    }
    Ok(Equation {
        net: NetId::new(net as u32),
        on,
        rows,
    })
}

fn raw_machine(alloc: Global, plan: &Plan<'_>) -> Result<RawMachine, NoMemory> {
    let mut raw = RawMachine {
        nets: plan.nets as u32,
        inputs: Vec::new(alloc),
        latches: Vec::new(alloc),
        equations: Vec::new(alloc),
        outputs: Vec::new(alloc),
        input_names: Vec::new(alloc),
        output_names: Vec::new(alloc),
    };
    for net in plan.inputs {
        raw.inputs.push(NetId::new(*net as u32))?;
        raw.input_names.push(None)?;
    }
    for (out, init, next) in plan.latches {
        raw.latches.push(Latch {
            out: NetId::new(*out as u32),
            init: *init,
            next: literal(*next),
        })?;
    }
    for sum in plan.sums {
        raw.equations.push(equation(alloc, *sum)?)?;
    }
    for code in plan.outputs {
        raw.outputs.push(literal(*code))?;
        raw.output_names.push(None)?;
    }
    Ok(raw)
}

/// The machine, if it fits and is well founded; one that doesn't fit counts as refused memory.
pub(crate) fn machine(alloc: Global, plan: &Plan<'_>) -> Result<Machine, Grounding> {
    grounded(alloc, raw_machine(alloc, plan)?)
}

/// The same of a raw machine.
pub(crate) fn grounded(alloc: Global, raw: RawMachine) -> Result<Machine, Grounding> {
    if !raw.fits() {
        return Err(Grounding::NoMemory);
    }
    ground(alloc, raw)
}

/// The lowest bits of a number.
pub(crate) fn bits_of(alloc: Global, number: u16, count: usize) -> Result<Vec<bool>, NoMemory> {
    let mut bits = Vec::new(alloc);
    let mut rest = number;
    for _bit in 0..count {
        bits.push(rest % 2 == 1)?;
        rest /= 2;
    }
    Ok(bits)
}
