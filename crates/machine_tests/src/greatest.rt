//! Machines of the greatest size, made by a loop: chains and fans of equations, written from last to
//! first.

ghost use Rattle.std.specs.Prelude.{◌≤◌};

use cell_netlist::Ask;
use graph_build::build;
use pulse_ids::{Ident, Lit, NetId, NoMemory, NodeId, Sign};
use rail_demand::demand;
use source_machine::{Cover, Equation, Grounding, Machine, RawMachine, Values, ground, step};
use std::alloc::Global;
use std::test::Fail;

const NETS: u32 = 524_288;

/// Equations of one literal: with the cube they are of size 2, and 131,072 of them are of the
/// greatest size.
const COPIES: u32 = 131_072;

/// Equations of two literals, of size 3.
const CONJUNCTIONS: u32 = 87_381;

/// An equation of one net over one cube, which reads one net or two.
fn link(alloc: Global, net: NetId, from: u32, gate: Option<u32>) -> Result<Equation, NoMemory>
    requires { from ≤ 524288 }
{
    let mut row = Cover::new(alloc);
    row.push(Lit::new(NetId::new(from), false))?;
    if let Some(2) = gate {
        row.push(Lit::new(NetId::new(2), false))?;
    }
    let mut rows = Vec::with_capacity(alloc, 1)?;
    rows.push(row)?;
    Ok(Equation {
        net,
        on: true,
        rows,
    })
}

/// The equations of the last nets, each of which reads the net before it, and the first of which
/// reads input net 1. The last one stands first.
fn chain(alloc: Global, links: u32, gate: Option<u32>) -> Result<Vec<Equation>, NoMemory>
    requires { links ≤ 524287 }
{
    let mut equations = Vec::with_capacity(alloc, links as usize)?;
    for place in 0..links {
        let net = NETS - place;
        let from = if place + 1 == links { 1 } else { net - 1 };
        equations.push(link(alloc, NetId::new(net), from, gate)?)?;
    }
    Ok(equations)
}

/// The equations of the last nets, each of which is the conjunction of the two inputs. The last one
/// stands first.
fn fan(alloc: Global, blades: u32) -> Result<Vec<Equation>, NoMemory>
    requires { blades ≤ 524287 }
{
    let mut equations = Vec::with_capacity(alloc, blades as usize)?;
    for place in 0..blades {
        equations.push(link(alloc, NetId::new(NETS - place), 1, Some(2))?)?;
    }
    Ok(equations)
}

/// The machine of these equations, with two inputs and its last net as the output.
fn raw_machine(alloc: Global, equations: Vec<Equation>) -> Result<RawMachine, NoMemory> {
    let mut input_names = Vec::new(alloc);
    input_names.push(None)?;
    input_names.push(None)?;
    let mut output_names = Vec::new(alloc);
    output_names.push(None)?;
    Ok(RawMachine {
        nets: NETS,
        inputs: Vec::from_slice(alloc, &[NetId::new(1), NetId::new(2)])?,
        latches: Vec::new(alloc),
        equations,
        outputs: Vec::from_slice(alloc, &[Lit::new(NetId::new(NETS), false)])?,
        input_names,
        output_names,
    })
}

/// The machine of these equations, if it is well founded.
fn machine(alloc: Global, equations: Vec<Equation>) -> Result<Machine, Grounding> {
    let raw = raw_machine(alloc, equations)?;
    if !raw.fits() {
        return Err(Grounding::NoMemory);
    }
    ground(alloc, raw)
}

/// The bit of the last net in a cycle, or none where the machine has other widths.
fn last_bit(alloc: Global, machine: &Machine, inputs: &[bool]) -> Result<Option<bool>, NoMemory> {
    let raw = machine.raw();
    if !raw.latches.is_empty() || inputs.len() != raw.inputs.len() || raw.nets < NETS {
        return Ok(None);
    }
    let mut room = Values::new(alloc, machine)?;
    step(machine, &mut [], inputs, &mut room);
    Ok(Some(room.value(Lit::new(NetId::new(NETS), false))))
}

#[test]
fn the_greatest_chain_is_accepted_and_stepped(rt: HostRuntime) -> Result<(), Fail> {
    let machine = machine(rt.alloc(), chain(rt.alloc(), COPIES, None)?)?;
    for bit in [true, false, true] {
        assert!(rt; last_bit(rt.alloc(), &machine, &[bit, false])? == Some(bit));
    }
    Ok(())
}

#[test]
fn the_greatest_graph_is_built_and_demanded(rt: HostRuntime) -> Result<(), Fail> {
    let machine = machine(rt.alloc(), chain(rt.alloc(), CONJUNCTIONS, Some(2))?)?;
    let built = build(rt.alloc(), &machine)?;
    assert_eq!(rt; built.graph().len(), 3 + CONJUNCTIONS);
    assert_eq!(rt; built.outputs(), 1);
    let needed = demand(rt.alloc(), &built, Ask::Neg)?;
    for number in 0..built.graph().len() {
        let node = NodeId::new(number);
        assert!(rt; !needed.needs(node, Sign::Pos));
        assert!(rt; needed.needs(node, Sign::Neg) == (number != 0));
    }
    Ok(())
}

#[test]
fn the_widest_machine_is_built_and_demanded(rt: HostRuntime) -> Result<(), Fail> {
    let machine = machine(rt.alloc(), fan(rt.alloc(), CONJUNCTIONS)?)?;
    let built = build(rt.alloc(), &machine)?;
    assert_eq!(rt; built.graph().len(), 4);
    let needed = demand(rt.alloc(), &built, Ask::Pos)?;
    for number in 0..built.graph().len() {
        let node = NodeId::new(number);
        assert!(rt; !needed.needs(node, Sign::Neg));
        assert!(rt; needed.needs(node, Sign::Pos) == (number != 0));
    }
    Ok(())
}
