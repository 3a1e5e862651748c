//! Orders of long chains of gates, and reports on them.

use crate::nets::{CellLine, add_cell, add_input, add_output};
use cell_netlist::Netlist;
use cell_orders::cell_order;
use junction_report::report;
use pulse_ids::{Ident, NoMemory, Sign};
use rail_checker::check;
use std::alloc::Global;
use std::test::Fail;

/// How many cells a long chain has.
const LONG: u32 = 40_000;

/// A chain of LA cells: the one at place `k` reads inputs `k + 1` and what the one before drives, on port a or b.
fn chain(alloc: Global, backwards: bool, at_b: bool) -> Result<Netlist, NoMemory> {
    let mut net = Netlist::new(alloc, LONG + 1, 1);
    for port in 0..LONG + 1 {
        add_input(&mut net, (port, Sign::Pos, port))?;
    }
    for number in 0..LONG {
        let place = if backwards { LONG - 1 - number } else { number };
        let before = if place == 0 { 0 } else { LONG + place };
        let input = place + 1;
        let (a, b) = if at_b {
            (input, before)
        } else {
            (before, input)
        };
        add_cell(&mut net, CellLine::La(a, b, LONG + 1 + place))?;
    }
    add_output(&mut net, (0, Sign::Pos, 2 * LONG))?;
    Ok(net)
}

#[test]
fn long_chains_are_as_deep_as_they_are_long(rt: HostRuntime) -> Result<(), Fail> {
    for (backwards, at_b) in [(false, false), (true, true)] {
        let net = chain(rt.alloc(), backwards, at_b)?;
        let sound = check(rt.alloc(), net).ok().ok_or("not sound")?;
        let report = report(rt.alloc(), &sound)?;
        assert_eq!(rt; (report.la, report.junctions), (LONG, 4 * LONG));
        assert_eq!(rt;
            (report.logic, report.cells, report.path.len()),
            (LONG, LONG, LONG)
        );
        let first = report.path.cells().first().ok_or("no path")?;
        assert_eq!(rt; first.number(), if backwards { LONG - 1 } else { 0 });
    }
    Ok(())
}

#[test]
fn long_chains_are_ordered_from_their_first_cell(rt: HostRuntime) -> Result<(), Fail> {
    for (backwards, first, last) in [(false, 0, LONG - 1), (true, LONG - 1, 0)] {
        let net = chain(rt.alloc(), backwards, true)?;
        let sound = check(rt.alloc(), net).ok().ok_or("not sound")?;
        let order = cell_order(rt.alloc(), &sound)?;
        assert_eq!(rt; order.items().len(), LONG as usize);
        assert_eq!(rt; order.items().first(), Some(&first));
        assert_eq!(rt; order.items().last(), Some(&last));
    }
    Ok(())
}
