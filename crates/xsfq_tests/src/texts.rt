//! The text of a netlist with each kind of line.

ghost use Rattle.std.specs.Prelude.{◌≡◌};
ghost use Rattle.pulse_ids.specs.Ids.{numbered};

use byte_ports::MemorySink;
use cell_netlist::{Cell, Netlist, Rail, Role};
use netlist_writer::write_netlist;
use pulse_ids::{Ident, Name, NoMemory, Sign, WireId};
use std::alloc::Global;
use std::test::Fail;

fn rail(port: u32, sign: Sign, wire: u32) -> Rail
    ensures { result.wire.number ≡ wire }
{
    Rail {
        port,
        sign,
        wire: WireId::new(wire),
    }
}

fn wire(number: u32) -> WireId
    ensures { result ≡ numbered number }
{
    WireId::new(number)
}

/// A netlist of one line of each kind, and a back with one output.
fn every_line(alloc: Global) -> Result<Netlist, NoMemory> {
    let mut net = Netlist::new(alloc, 2, 2);
    net.add_input(rail(0, Sign::Pos, 0))?;
    net.add_input(rail(1, Sign::Neg, 1))?;
    net.add_cell(Cell::La {
        a: wire(0),
        b: wire(1),
        out: wire(2),
    })?;
    net.add_cell(Cell::Fa {
        a: wire(10),
        b: wire(11),
        out: wire(4_095),
    })?;
    net.add_cell(Cell::Split {
        from: wire(2),
        left: wire(3),
        right: wire(4),
    })?;
    net.add_cell(Cell::Droc {
        role: Role::Back,
        preload: true,
        feed: wire(5),
        q: None,
        n: Some(wire(6)),
    })?;
    net.add_output(rail(1, Sign::Neg, 3))?;
    net.name_input(1, Name::new(alloc, b"clk <0>")?)?;
    net.name_output(0, Name::new(alloc, b"q")?)?;
    Ok(net)
}

#[test]
fn each_line_has_its_text(rt: HostRuntime) -> Result<(), Fail> {
    let text =
        "xsfq 1\nports 2 2\ninput 0 p 0\ninput 1 n 1\nla 0 1 2\nfa 10 11 4095\nsplit 2 3 4\ndroc b 1 5 - 6\noutput 1 n 3\niname 1 clk <0>\noname 0 q\nend\n";
    let net = every_line(rt.alloc())?;
    for step in [1, 5, 4096] {
        let mut sink = MemorySink::new(rt.alloc(), step, Vec::new(rt.alloc()));
        assert!(rt; write_netlist(&net, &mut sink).is_ok());
        assert_eq!(rt; sink.taken(), text.as_bytes());
    }
    Ok(())
}
