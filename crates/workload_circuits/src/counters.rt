//! A counter of any number of bits with one enable input.

ghost use Rattle.std.specs.Prelude.{◌≡◌, ◌≤◌, ◌<◌, ◌^◌, IfOk, OnOk};
ghost use Rattle.source_machine.specs.Machines.{machine_of, literal_of, latch_of, equation_of};
ghost use Rattle.source_machine.specs.Examples.{plain, inverse};
ghost use Rattle.workload_circuits.specs.Counters.{held, carry, neither, toggled, incoming, conjunction, bit_latch, bit_equations};
ghost use Rattle.workload_circuits.specs.Counters.{with_latches, with_outputs, with_equations, counter_latches, counter_outputs, counter_equations, counter};

use pulse_ids::{Ident, Lit, NetId, NoMemory};
use source_machine::{Cover, Equation, Latch, RawMachine};
use std::alloc::Global;

/// The net that holds a bit.
fn held(bit: u32) -> u32
    requires { bit < 4096 }
    ensures { result ≡ held bit }
{
    2 + bit
}

/// The net that is 1 where a bit and what comes into it are 1.
fn carry(bits: u32, bit: u32) -> u32
    requires bits { bits ≤ 4096 }
    requires bit { bit < bits }
    ensures { result ≡ carry bits bit }
{
    bits + 2 + 3 * bit
}

/// The net that is 1 where a bit and what comes into it are 0.
fn neither(bits: u32, bit: u32) -> u32
    requires bits { bits ≤ 4096 }
    requires bit { bit < bits }
    ensures { result ≡ neither bits bit }
{
    carry(bits, bit) + 1
}

/// The net that holds what a bit is next.
fn toggled(bits: u32, bit: u32) -> u32
    requires bits { bits ≤ 4096 }
    requires bit { bit < bits }
    ensures { result ≡ toggled bits bit }
{
    carry(bits, bit) + 2
}

/// The net that comes into a bit: the input into the lowest one, and into another the carry of the bit below.
fn incoming(bits: u32, bit: u32) -> u32
    requires bits { bits ≤ 4096 }
    requires bit { bit < bits }
    ensures { result ≡ incoming bits bit }
{
    if bit == 0 { 1 } else { carry(bits, bit - 1) }
}

fn plain(net: u32) -> Lit
    requires { net < 2 ^ 31 }
    ensures { literal_of result ≡ plain net }
{
    Lit::new(NetId::new(net), false)
}

fn inverse(net: u32) -> Lit
    requires { net < 2 ^ 31 }
    ensures { literal_of result ≡ inverse net }
{
    Lit::new(NetId::new(net), true)
}

fn conjunction(alloc: Global, net: u32, first: Lit, second: Lit) -> Result<Equation, NoMemory>
    ensures { IfOk result (λ equation. equation_of equation ≡ conjunction net (literal_of first) (literal_of second)) }
{
    let mut cube = Cover::new(alloc);
    cube.push(first)?;
    cube.push(second)?;
    let mut rows = Vec::with_capacity(alloc, 1)?;
    rows.push(cube)?;
    Ok(Equation {
        net: NetId::new(net),
        on: true,
        rows,
    })
}

/// The latch of a bit, which holds 0 at first.
fn bit_latch(bits: u32, bit: u32) -> Latch
    requires bits { bits ≤ 4096 }
    requires bit { bit < bits }
    ensures { latch_of result ≡ bit_latch bits bit }
{
    Latch {
        out: NetId::new(held(bit)),
        init: false,
        next: plain(toggled(bits, bit)),
    }
}

#[tactic(auto, using(crate::proofs::Adding::no_latches, crate::proofs::Adding::more_latches))]
fn add_latches(raw: &mut RawMachine, bits: u32) -> Result<(), NoMemory>
    requires { bits ≤ 4096 }
    ensures { OnOk result (machine_of raw.new ≡ with_latches (machine_of raw.old) (counter_latches bits bits)) }
{
    for bit in 0..bits {
        raw.add_latch(bit_latch(bits, bit))?;
    }
    Ok(())
}

#[tactic(auto, using(crate::proofs::Adding::no_outputs, crate::proofs::Adding::more_outputs))]
fn add_outputs(raw: &mut RawMachine, bits: u32) -> Result<(), NoMemory>
    requires { bits ≤ 4096 }
    ensures { OnOk result (machine_of raw.new ≡ with_outputs (machine_of raw.old) (counter_outputs bits)) }
{
    for bit in 0..bits {
        raw.add_output(plain(held(bit)), None)?;
    }
    Ok(())
}

/// Adds the three equations of a bit.
fn add_bit(alloc: Global, raw: &mut RawMachine, bits: u32, bit: u32) -> Result<(), NoMemory>
    requires bits { bits ≤ 4096 }
    requires bit { bit < bits }
    ensures { OnOk result (machine_of raw.new ≡ with_equations (machine_of raw.old) (bit_equations bits bit)) }
{
    let held = held(bit);
    let incoming = incoming(bits, bit);
    let carry = carry(bits, bit);
    let neither = neither(bits, bit);
    raw.add_equation(conjunction(alloc, carry, plain(held), plain(incoming))?)?;
    raw.add_equation(conjunction(alloc, neither, inverse(held), inverse(incoming))?)?;
    raw.add_equation(conjunction(alloc, toggled(bits, bit), inverse(carry), inverse(neither))?)
}

#[tactic(auto, using(crate::proofs::Adding::no_equations))]
fn add_equations(alloc: Global, raw: &mut RawMachine, bits: u32) -> Result<(), NoMemory>
    requires { bits ≤ 4096 }
    ensures { OnOk result (machine_of raw.new ≡ with_equations (machine_of raw.old) (counter_equations bits bits)) }
{
    for bit in 0..bits {
        add_bit(alloc, raw, bits, bit)?;
    }
    Ok(())
}

/// A counter of 1 to 4,096 bits. It counts the cycles in which its one input is 1, from 0 on and modulo 2 to the
/// number of bits. Its outputs are the bits, the lowest first, as they stand before the cycle's count. It takes time and
/// memory linear in the bits, and fails only for want of memory.
pub fn counter(alloc: Global, bits: u32) -> Result<RawMachine, NoMemory>
    requires { bits ≤ 4096 }
    ensures { IfOk result (λ raw. machine_of raw ≡ counter bits) }
{
    let mut raw = RawMachine::bare(alloc, 4 * bits + 1);
    raw.add_input(NetId::new(1), None)?;
    add_latches(&mut raw, bits)?;
    add_outputs(&mut raw, bits)?;
    add_equations(alloc, &mut raw, bits)?;
    Ok(raw)
}
