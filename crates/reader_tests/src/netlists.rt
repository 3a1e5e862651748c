//! Netlist texts that are read and written back, and a reader of netlists in its course.

ghost use Rattle.std.specs.Prelude.{◌≤◌};

use byte_ports::MemorySink;
use cell_netlist::Netlist;
use netlist_reader::{NetReader, NetRefusal};
use netlist_writer::write_netlist;
use pulse_ids::Quantity;
use std::alloc::Global;
use std::test::Fail;

/// Reads a text in pieces of at most so many bytes: the netlist, and how many bytes were taken.
fn read(alloc: Global, text: &[u8], step: usize) -> Result<(Netlist, usize), NetRefusal>
    requires { 1 ≤ step }
{
    let mut reader = NetReader::new(alloc);
    let mut taken: usize = 0;
    for piece in text.chunks(step) {
        let fed = reader.feed(piece)?;
        taken = taken.wrapping_add(fed.used);
    }
    let net = reader.finish()?;
    Ok((net, taken))
}

const HALF_ADDER: &[u8] = b"xsfq 1\nports 2 2\ninput 0 p 0\ninput 0 n 1\ninput 1 p 2\ninput 1 n 3\n\
    split 0 4 5\nsplit 2 6 7\nla 4 6 8\nfa 1 3 9\nfa 5 7 10\nla 9 10 11\n\
    output 0 p 11\noutput 1 p 8\niname 0 x\niname 1 y\noname 0 s\noname 1 c\nend\n";

#[test]
fn texts_are_read_and_written_back(rt: HostRuntime) -> Result<(), Fail> {
    let texts: [&[u8]; 9] = [
        b"xsfq 1\nports 0 0\nend\n",
        b"xsfq 1\nports 0 2\ndroc b 0 4 0 1\nsplit 1 2 3\ndroc f 1 2 4 -\noutput 0 p 0\noutput 1 p 3\nend\n",
        HALF_ADDER,
        b"xsfq 1\nports 2 1\ninput 0 p 0\ninput 1 p 1\nfa 0 1 2\noutput 0 p 2\niname 0 a\niname 1 b\noname 0 f\nend\n",
        b"xsfq 1\nports 0 0\ndroc b 0 1 0 -\ndroc f 0 0 1 -\nend\n",
        b"xsfq 1\nports 0 0\ndroc c 1 0 - 0\nend\n",
        b"xsfq 1\nports 16384 16384\ninput 4294967295 p 4194303\noutput 7 n 0\niname 16383 end\noname 9 -\nend\n",
        b"xsfq 1\nports 1 0\ninput 0 p 0\nla 0 1 1\nend\n",
        b"xsfq 1\nports 3 0\niname 0  two words \r\niname 2 \xff\x00\nend\n",
    ];
    for text in texts {
        for step in [1, 3, 4096] {
            let (net, taken) = read(rt.alloc(), text, step).ok().ok_or("refused")?;
            assert_eq!(rt; taken, text.len());
            let mut sink = MemorySink::new(rt.alloc(), 4096, Vec::new(rt.alloc()));
            assert!(rt; write_netlist(&net, &mut sink).is_ok());
            assert_eq!(rt; sink.taken(), text);
        }
    }
    Ok(())
}

#[test]
fn a_reader_stops_behind_the_end(rt: HostRuntime) -> Result<(), Fail> {
    let mut reader = NetReader::new(rt.alloc());
    assert!(rt; reader.inputs().is_none());
    let first = reader.feed(b"xsfq 1\nports 7 1\nen")?;
    assert_eq!(rt; (first.used, first.ended, reader.lines()), (19, false, 2));
    assert_eq!(rt; reader.inputs(), Some(7));
    let last = reader.feed(b"d\nvectors\n")?;
    assert_eq!(rt; (last.used, last.ended, reader.lines()), (2, true, 3));
    let after = reader.feed(b"x\n")?;
    assert_eq!(rt; (after.used, after.ended), (0, true));
    assert_eq!(rt; reader.finish()?.inputs(), 7);
    Ok(())
}

#[test]
fn a_refusal_is_told_early_and_again(rt: HostRuntime) -> Result<(), Fail> {
    let told = NetRefusal::Limit(Quantity::Inputs);
    let mut reader = NetReader::new(rt.alloc());
    assert!(rt; reader.feed(b"xsfq 1\nports 16385 0").is_ok());
    assert!(rt; reader.feed(b"\nports").err() == Some(told));
    assert!(rt; reader.feed(b"").err() == Some(told));
    assert_eq!(rt; (reader.lines(), reader.inputs()), (1, Some(16_385)));
    assert!(rt; reader.finish().err() == Some(told));
    Ok(())
}
