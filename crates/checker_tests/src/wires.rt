//! What the rules of wiring say of netlists, sound or not, and which wires are roots.

ghost use Rattle.std.specs.Prelude.{◌≡◌};
ghost use Rattle.cell_netlist.specs.Wired.{IsWired};

use crate::nets::{CellLine, RailLine, add_cell, add_input, add_output};
use cell_netlist::{Driver, Netlist, Reader, Role, Unsound, WiredNet};
use pulse_ids::{CellId, Ident, NoMemory, RailId, Sign, WireId};
use rail_checker::{Refused, check, check_wires, wire_roots};
use std::alloc::Global;
use std::test::Fail;

/// The netlist of these lines, with one port on each side.
fn netlist(
    alloc: Global,
    inputs: &[RailLine],
    cells: &[CellLine],
    outputs: &[RailLine],
) -> Result<Netlist, NoMemory> {
    let mut net = Netlist::new(alloc, 1, 1);
    for line in inputs {
        add_input(&mut net, *line)?;
    }
    for line in cells {
        add_cell(&mut net, *line)?;
    }
    for line in outputs {
        add_output(&mut net, *line)?;
    }
    Ok(net)
}

/// The first rule of wiring that a netlist breaks, and none where it breaks none.
fn wiring(alloc: Global, net: Netlist) -> Result<Option<Unsound>, NoMemory> {
    match check_wires(alloc, net) {
        Ok(_wired) => Ok(None),
        Err(Refused::Unsound(_back, unsound)) => Ok(Some(unsound)),
        Err(Refused::NoMemory(_back)) => Err(NoMemory),
    }
}

#[test]
fn wiring_alone_is_judged(rt: HostRuntime) -> Result<(), Fail> {
    let a: RailLine = (0, Sign::Pos, 0);
    let b: RailLine = (0, Sign::Neg, 1);
    let far: RailLine = (5, Sign::Pos, 1);
    let looped = [CellLine::La(0, 2, 1), CellLine::Split(1, 2, 3)];
    let loose = [
        CellLine::La(0, 1, 2),
        CellLine::Droc(Role::Front, false, 3, Some(1), None),
    ];
    let gate = [CellLine::La(0, 1, 2)];
    let out: RailLine = (0, Sign::Pos, 2);
    let cases: [(&[RailLine], &[CellLine], &[RailLine], Option<Unsound>); 12] = [
        (&[], &[], &[], None),
        (&[], &[], &[a], Some(Unsound::WireUndriven(WireId::new(0)))),
        (
            &[a, a],
            &[],
            &[a],
            Some(Unsound::WireTwiceDriven(WireId::new(0))),
        ),
        (&[a], &[], &[], Some(Unsound::WireUnread(WireId::new(0)))),
        (
            &[a],
            &[],
            &[a, a],
            Some(Unsound::WireTwiceRead(WireId::new(0))),
        ),
        (&[a], &[], &[b], Some(Unsound::WireUndriven(WireId::new(1)))),
        (
            &[a, far],
            &gate,
            &[],
            Some(Unsound::WireUnread(WireId::new(2))),
        ),
        (
            &[a, far],
            &[],
            &[a, b, b],
            Some(Unsound::WireTwiceRead(WireId::new(1))),
        ),
        (&[a, far], &gate, &[out], None),
        (&[a, (0, Sign::Pos, 1)], &gate, &[out], None),
        (&[a], &looped, &[(0, Sign::Pos, 3)], None),
        (&[a, (0, Sign::Neg, 3)], &loose, &[out], None),
    ];
    for (inputs, cells, outputs, found) in cases {
        let net = netlist(rt.alloc(), inputs, cells, outputs)?;
        assert_eq!(rt; wiring(rt.alloc(), net)?, found);
    }
    Ok(())
}

/// The driver and the reader of each wire.
fn places(alloc: Global, net: &Netlist) -> Result<Vec<(Driver, Reader)>, NoMemory>
    requires { IsWired net.now }
{
    let wired = WiredNet::new(alloc, net)?;
    let mut places = Vec::new(alloc);
    for number in 0..net.wires() {
        let wire = WireId::new(number);
        places.push((wired.driver(wire), wired.reader(wire)))?;
    }
    Ok(places)
}

#[test]
fn wires_of_an_unsound_netlist_have_places(rt: HostRuntime) -> Result<(), Fail> {
    let cells = [
        CellLine::La(0, 1, 2),
        CellLine::Droc(Role::Front, false, 3, Some(1), None),
    ];
    let inputs = [(0, Sign::Pos, 0), (0, Sign::Neg, 3)];
    let net = netlist(rt.alloc(), &inputs, &cells, &[(0, Sign::Pos, 2)])?;
    let net = check_wires(rt.alloc(), net).ok().ok_or("not wired")?;
    let places = places(rt.alloc(), &net)?;
    let gate = CellId::new(0);
    let droc = CellId::new(1);
    assert_eq!(rt;
        places.as_slice(),
        [
            (Driver::Input(RailId::new(0)), Reader::A(gate)),
            (Driver::Q(droc), Reader::B(gate)),
            (Driver::Out(gate), Reader::Output(RailId::new(0))),
            (Driver::Input(RailId::new(1)), Reader::Feed(droc)),
        ]
        .as_slice()
    );
    Ok(())
}

#[test]
fn roots_are_found_through_splitters(rt: HostRuntime) -> Result<(), Fail> {
    let cells = [
        CellLine::Split(5, 6, 7),
        CellLine::Split(2, 3, 4),
        CellLine::La(1, 3, 5),
        CellLine::Split(0, 1, 2),
    ];
    let outputs = [(0, Sign::Pos, 7), (0, Sign::Pos, 6), (0, Sign::Pos, 4)];
    let net = netlist(rt.alloc(), &[(0, Sign::Pos, 0)], &cells, &outputs)?;
    let sound = check(rt.alloc(), net).ok().ok_or("not sound")?;
    let roots = wire_roots(rt.alloc(), &sound)?;
    let wanted = [0, 0, 0, 0, 0, 5, 5, 5];
    assert_eq!(rt; roots.len(), 8);
    for (root, number) in roots.items().iter().zip(wanted) {
        assert_eq!(rt; root.number(), number);
    }
    Ok(())
}
