//! The tables of the cells, and netlists that grow line by line.

ghost use Rattle.std.specs.Prelude.{◌≡◌};

use cell_netlist::{Cell, Gate, Held, Netlist, Port, Rail, Role, arrive, feed_bit};
use pulse_ids::{CellId, Ident, Name, Sign, WireId};
use std::test::Fail;

/// Each gate with what it holds, the port of a pulse, what it holds then and whether it emits.
const LINES: [(Gate, Held, Port, Option<(Held, bool)>); 12] = [
    (Gate::La, Held::Rest, Port::A, Some((Held::HasA, false))),
    (Gate::La, Held::Rest, Port::B, Some((Held::HasB, false))),
    (Gate::La, Held::HasA, Port::A, None),
    (Gate::La, Held::HasA, Port::B, Some((Held::Rest, true))),
    (Gate::La, Held::HasB, Port::A, Some((Held::Rest, true))),
    (Gate::La, Held::HasB, Port::B, None),
    (Gate::Fa, Held::Rest, Port::A, Some((Held::HasA, true))),
    (Gate::Fa, Held::Rest, Port::B, Some((Held::HasB, true))),
    (Gate::Fa, Held::HasA, Port::A, None),
    (Gate::Fa, Held::HasA, Port::B, Some((Held::Rest, false))),
    (Gate::Fa, Held::HasB, Port::A, Some((Held::Rest, false))),
    (Gate::Fa, Held::HasB, Port::B, None),
];

#[test]
fn the_tables_have_these_lines(rt: HostRuntime) -> Result<(), Fail> {
    for (gate, held, port, line) in LINES {
        assert_eq!(rt;
            arrive(gate, held, port),
            line,
            "at {gate:?} {held:?} {port:?}"
        );
    }
    assert_eq!(rt; feed_bit(false), Some(true));
    assert_eq!(rt; feed_bit(true), None);
    Ok(())
}

fn positive(wire: u32) -> Rail
    ensures { result.wire.number ≡ wire }
{
    Rail {
        port: 0,
        sign: Sign::Pos,
        wire: WireId::new(wire),
    }
}

#[test]
fn rails_raise_the_number_of_wires(rt: HostRuntime) -> Result<(), Fail> {
    let mut net = Netlist::new(rt.alloc(), 1, 2);
    assert_eq!(rt; net.wires(), 0);
    assert_eq!(rt; net.add_input(positive(6))?.number(), 0);
    assert_eq!(rt; net.wires(), 7);
    assert_eq!(rt; net.add_output(positive(4))?.number(), 0);
    assert_eq!(rt; net.wires(), 7);
    net.add_output(positive(9))?;
    assert_eq!(rt; net.wires(), 10);
    assert_eq!(rt; (net.inputs(), net.outputs()), (1, 2));
    assert_eq!(rt; net.input_rails().items(), [positive(6)].as_slice());
    assert_eq!(rt;
        net.output_rails().items(),
        [positive(4), positive(9)].as_slice()
    );
    assert!(rt; net.cells().is_empty());
    Ok(())
}

#[test]
fn named_ports_have_their_names(rt: HostRuntime) -> Result<(), Fail> {
    let alloc = rt.alloc();
    let mut net = Netlist::new(alloc, 3, 2);
    assert!(rt; net.input_name(0).is_none());
    assert!(rt; net.output_name(1).is_none());
    net.name_input(1, Name::new(alloc, b"x")?)?;
    net.name_output(1, Name::new(alloc, b"s")?)?;
    assert!(rt; net.input_name(0).is_none());
    assert!(rt; net.input_name(1).map(|name| name.bytes()) == Some(b"x".as_slice()));
    assert!(rt; net.output_name(1).map(|name| name.bytes()) == Some(b"s".as_slice()));
    assert!(rt; net.output_name(0).is_none());
    Ok(())
}

#[test]
fn cells_raise_the_number_of_wires(rt: HostRuntime) -> Result<(), Fail> {
    let mut net = Netlist::new(rt.alloc(), 0, 0);
    let split = Cell::Split {
        from: WireId::new(2),
        left: WireId::new(7),
        right: WireId::new(3),
    };
    let constant = Cell::Droc {
        role: Role::Const,
        preload: true,
        feed: WireId::new(2),
        q: None,
        n: Some(WireId::new(2)),
    };
    assert_eq!(rt; net.add_cell(constant)?.number(), 0);
    assert_eq!(rt; net.wires(), 3);
    assert_eq!(rt; net.add_cell(split)?.number(), 1);
    assert_eq!(rt; net.wires(), 8);
    net.set_feed(CellId::new(0), WireId::new(9));
    assert_eq!(rt; *net.cells().get(CellId::new(1)), split);
    assert_eq!(rt; net.wires(), 10);
    Ok(())
}
