//! Numbers of kinds, literals, names, rows and packed bits.

use pulse_ids::{
    Bits, CellId, Id, Ident, Lit, Name, NetId, NoMemory, NodeId, NodeLit, RailId, Row, Sign, WireId,
};
use std::alloc::Global;
use std::cmp::Ordering;
use std::test::Fail;

#[test]
fn literals_have_the_codes_of_aiger(rt: HostRuntime) -> Result<(), Fail> {
    let seven = Id::new(7);
    let cases = [
        (Lit::FALSE, 0),
        (Lit::TRUE, 1),
        (Lit::FALSE.flip(), 1),
        (Lit::new(seven, false), 14),
        (Lit::new(seven, true), 15),
        (Lit::new(seven, true).flip(), 14),
    ];
    for (literal, code) in cases {
        assert_eq!(rt; literal.code(), code);
    }
    assert_eq!(rt; NodeLit::FALSE.code(), 0);
    assert_eq!(rt; NodeLit::TRUE.code(), 1);
    assert_eq!(rt; Lit::default(), Lit::FALSE);
    assert_eq!(rt; NodeLit::default(), NodeLit::FALSE);
    assert_eq!(rt; Sign::Pos.flip(), Sign::Neg);
    assert_eq!(rt; NodeLit::TRUE.rail_sign(Sign::Pos), Sign::Neg);
    assert_eq!(rt; NodeLit::FALSE.rail_sign(Sign::Pos), Sign::Pos);
    Ok(())
}

fn first_two<I: Ident>(alloc: Global) -> Result<Row<I, u8>, NoMemory> {
    let mut row = Row::new(alloc);
    row.push(7)?;
    row.push(9)?;
    Ok(row)
}

#[test]
fn rows_hold_what_was_pushed(rt: HostRuntime) -> Result<(), Fail> {
    let row = first_two::<WireId>(rt.alloc())?;
    assert_eq!(rt; row.len(), 2);
    assert_eq!(rt; *row.get(WireId::new(1)), 9);
    assert_eq!(rt; first_two::<CellId>(rt.alloc())?.items(), [7, 9].as_slice());
    assert_eq!(rt; first_two::<NetId>(rt.alloc())?.len(), 2);
    assert_eq!(rt; first_two::<NodeId>(rt.alloc())?.len(), 2);
    assert!(rt; !first_two::<RailId>(rt.alloc())?.is_empty());
    let mut row = Row::<WireId, u8>::filled(rt.alloc(), 5, 3)?;
    row.set(WireId::new(1), 6);
    assert_eq!(rt; row.items(), [5, 6, 5].as_slice());
    assert_eq!(rt; row.try_get(1), Some(&6));
    assert_eq!(rt; row.try_get(3), None);
    Ok(())
}

#[test]
fn names_are_their_bytes_in_order(rt: HostRuntime) -> Result<(), Fail> {
    let alloc = rt.alloc();
    let cases = [
        (b"n<7>".as_slice(), b"n<7>".as_slice(), Ordering::Equal),
        (b"n", b"n0", Ordering::Less),
        (b"o", b"n0", Ordering::Greater),
        (b"\xff", b"n0", Ordering::Greater),
    ];
    for (one, other, order) in cases {
        let name = Name::new(alloc, one)?;
        assert_eq!(rt; name.bytes(), one);
        assert_eq!(rt; name.cmp(&Name::new(alloc, other)?), order);
        assert!(rt; name.clone()? == name);
        assert!(rt; name.is_port_name());
    }
    assert!(rt; !Name::new(alloc, b"")?.is_port_name());
    assert!(rt; !Name::new(alloc, b"a\n")?.is_port_name());
    assert!(rt; Name::new(alloc, &[b'n'; 1023])?.is_port_name());
    assert!(rt; !Name::new(alloc, &[b'n'; 1024])?.is_port_name());
    Ok(())
}

#[test]
fn packed_bits_are_read_as_they_were_set(rt: HostRuntime) -> Result<(), Fail> {
    let mut bits = Bits::<WireId>::filled(rt.alloc(), 130)?;
    assert_eq!(rt; bits.len(), 130);
    for (number, bit) in [
        (0, true),
        (63, true),
        (64, true),
        (127, true),
        (129, true),
        (64, false),
    ] {
        assert!(rt; number < bits.len());
        bits.set(WireId::new(number), bit);
    }
    for number in 0..130 {
        assert!(rt; number < bits.len());
        let set = matches!(number, 0 | 63 | 127 | 129);
        assert!(rt; bits.get(WireId::new(number)) == set);
    }
    assert_eq!(rt; Bits::<NodeId>::filled(rt.alloc(), 0)?.len(), 0);
    Ok(())
}
