//! Great netlists, and netlists of the crates that build them.

ghost use Rattle.std.specs.Prelude.{◌≤◌};

use crate::nets::{CellLine, add_cell, add_input, add_output, verdict};
use cell_netlist::{Netlist, Rail, Role, Unsound};
use droc_pairs::{begin_pair, constant, finish_pair};
use pulse_ids::{CellId, Ident, NoMemory, RailId, Sign, WireId};
use splitter_trees::spread;
use std::alloc::Global;
use std::test::Fail;

/// How many splitters a long chain has.
const LONG: u32 = 200_000;

/// Adds a chain of splitters: number `k` reads wire `2 k`, drives wires `2 k + 1` and `2 k + 2`, and the last one
/// drives no later wire. Each left output, and the last right one, is read by an output rail.
fn add_chain(net: &mut Netlist, backwards: bool) -> Result<(), NoMemory> {
    for place in 0..LONG {
        let k = if backwards { LONG - 1 - place } else { place };
        add_cell(net, CellLine::Split(2 * k, 2 * k + 1, 2 * k + 2))?;
        add_output(net, (k, Sign::Neg, 2 * k + 1))?;
    }
    Ok(())
}

/// The netlist of an input on a long chain.
fn chain(alloc: Global, backwards: bool) -> Result<Netlist, NoMemory> {
    let mut net = Netlist::new(alloc, 1, LONG + 1);
    add_input(&mut net, (0, Sign::Pos, 0))?;
    add_chain(&mut net, backwards)?;
    add_output(&mut net, (LONG, Sign::Pos, 2 * LONG))?;
    Ok(net)
}

#[test]
fn long_chains_are_sound(rt: HostRuntime) -> Result<(), Fail> {
    let alloc = rt.alloc();
    for backwards in [false, true] {
        let net = chain(alloc, backwards)?;
        assert_eq!(rt; net.wires(), 2 * LONG + 1);
        assert_eq!(rt; verdict(alloc, net)?, None);
    }
    Ok(())
}

#[test]
fn constants_are_fed_through_long_chains(rt: HostRuntime) -> Result<(), Fail> {
    let alloc = rt.alloc();
    for backwards in [false, true] {
        let mut net = Netlist::new(alloc, 0, LONG);
        add_chain(&mut net, backwards)?;
        let feed = 2 * LONG;
        add_cell(
            &mut net,
            CellLine::Droc(Role::Const, true, feed, None, Some(0)),
        )?;
        assert_eq!(rt; verdict(alloc, net)?, None);
    }
    Ok(())
}

#[test]
fn long_loops_are_found(rt: HostRuntime) -> Result<(), Fail> {
    let alloc = rt.alloc();
    for backwards in [false, true] {
        let mut net = Netlist::new(alloc, 1, LONG);
        add_input(&mut net, (0, Sign::Pos, 2 * LONG + 1))?;
        add_chain(&mut net, backwards)?;
        add_cell(&mut net, CellLine::La(2 * LONG + 1, 2 * LONG, 0))?;
        let found = verdict(alloc, net)?;
        assert_eq!(rt; found, Some(Unsound::Loop(CellId::new(0))));
    }
    Ok(())
}

#[test]
fn one_rail_among_many_stands_twice(rt: HostRuntime) -> Result<(), Fail> {
    let alloc = rt.alloc();
    let mut net = Netlist::new(alloc, u32::MAX, LONG);
    for wire in 0..LONG {
        let port = u32::MAX - 1 - wire % (LONG - 1) * 7;
        add_input(&mut net, (port, Sign::Neg, wire))?;
        add_output(&mut net, (wire, Sign::Pos, wire))?;
    }
    let found = verdict(alloc, net)?;
    assert_eq!(rt; found, Some(Unsound::RailTwice(RailId::new(LONG - 1))));
    Ok(())
}

#[test]
fn drivers_of_a_wire_are_counted_to_the_end(rt: HostRuntime) -> Result<(), Fail> {
    let alloc = rt.alloc();
    let mut net = Netlist::new(alloc, 256, 0);
    for port in 0..256 {
        add_input(&mut net, (port, Sign::Pos, 0))?;
    }
    let found = verdict(alloc, net)?;
    assert_eq!(rt; found, Some(Unsound::WireTwiceDriven(WireId::new(0))));
    Ok(())
}

/// A netlist with a latch pair that takes input 0, of which both rails are spread.
fn latch(alloc: Global, init: bool) -> Result<Netlist, NoMemory> {
    let mut net = Netlist::new(alloc, 1, 2);
    net.add_input(Rail {
        port: 0,
        sign: Sign::Pos,
        wire: WireId::new(0),
    })?;
    let half = begin_pair(&mut net, init, true, true)?;
    finish_pair(&mut net, half, WireId::new(0))?;
    if let Some(wire) = half.q {
        add_output(&mut net, (0, Sign::Pos, wire.number()))?;
    }
    if let Some(wire) = half.n {
        add_output(&mut net, (1, Sign::Neg, wire.number()))?;
    }
    Ok(net)
}

/// A netlist with a constant whose rails are read so often.
fn constants(alloc: Global, ones: u16, zeros: u16) -> Result<Netlist, NoMemory>
    requires { 1 ≤ ones }
{
    let mut net = Netlist::new(alloc, 0, 1);
    let leaves = constant(alloc, &mut net, ones as u32, zeros as u32)?;
    for place in 0..leaves.one.len() {
        add_output(&mut net, (0, Sign::Pos, leaves.one.leaf(place).number()))?;
    }
    for place in 0..leaves.zero.len() {
        add_output(&mut net, (0, Sign::Neg, leaves.zero.leaf(place).number()))?;
    }
    Ok(net)
}

#[test]
fn built_netlists_are_sound(rt: HostRuntime) -> Result<(), Fail> {
    let alloc = rt.alloc();
    for init in [false, true] {
        assert_eq!(rt; verdict(alloc, latch(alloc, init)?)?, None);
    }
    assert_eq!(rt; verdict(alloc, constants(alloc, 1, 0)?)?, None);
    assert_eq!(rt; verdict(alloc, constants(alloc, 1000, 777)?)?, None);
    let mut net = Netlist::new(alloc, 1, 1);
    net.add_input(Rail {
        port: 0,
        sign: Sign::Pos,
        wire: WireId::new(0),
    })?;
    let leaves = spread(alloc, &mut net, WireId::new(0), 1000)?;
    for place in 0..leaves.len() {
        add_output(&mut net, (0, Sign::Pos, leaves.leaf(place).number()))?;
    }
    assert_eq!(rt; verdict(alloc, net)?, None);
    Ok(())
}
