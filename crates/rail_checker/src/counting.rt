//! Wires without a driver or a reader, and wires with two.

ghost use Rattle.std.specs.Prelude.{◌≡◌, ◌<◌, ◌≤◌, IfOk, length, map, nat_le, ◌==◌};
ghost use Rattle.std.specs.List.{flat_map, position};
ghost use Rattle.cell_netlist.specs.Netlists.{driven, read, number_of_wires, wire_bound, wire_of, used, outs, reads};
ghost use Rattle.rail_checker.specs.Counts.{Counts, with_wire, with_wires};
ghost use Rattle.rail_checker.specs.Verdicts.{IsJudged, IsClear};

use crate::scans::number;
use cell_netlist::{Cell, Netlist, Rail, Unsound};
use pulse_ids::{CellId, Ident, NoMemory, RailId, Row, WireId};
use std::alloc::Global;

/// The first refusal by the rules on drivers and readers of wires.
pub(crate) fn wires_unsound(alloc: Global, net: &Netlist) -> Result<Option<Unsound>, NoMemory>
    ensures { IfOk result (λ found. IsJudged net.now 4 found) }
{
    if let Some(unsound) = drivers_unsound(alloc, net)? {
        return Ok(Some(unsound));
    }
    readers_unsound(alloc, net)
}

fn drivers_unsound(alloc: Global, net: &Netlist) -> Result<Option<Unsound>, NoMemory>
    ensures { IfOk result (λ found. IsJudged net.now 2 found) }
{
    let counts = driver_counts(alloc, net)?;
    if let Some(unsound) = undriven(net, &counts) {
        return Ok(Some(unsound));
    }
    Ok(twice_driven(net, &counts))
}

fn readers_unsound(alloc: Global, net: &Netlist) -> Result<Option<Unsound>, NoMemory>
    requires { IsClear net.now 2 }
    ensures { IfOk result (λ found. IsJudged net.now 4 found) }
{
    let counts = reader_counts(alloc, net)?;
    if let Some(unsound) = unread(net, &counts) {
        return Ok(Some(unsound));
    }
    Ok(twice_read(net, &counts))
}

/// The lowest wire that has no driver.
fn undriven(net: &Netlist, counts: &Row<WireId, u8>) -> Option<Unsound>
    requires { Counts (number_of_wires net.now) (driven net.now) counts.now }
    ensures { IsJudged net.now 1 result }
{
    let wire = first_at_none(counts)?;
    Some(Unsound::WireUndriven(WireId::new(wire)))
}

/// The lowest wire that has two drivers.
fn twice_driven(net: &Netlist, counts: &Row<WireId, u8>) -> Option<Unsound>
    requires clear { IsClear net.now 1 }
    requires counts { Counts (number_of_wires net.now) (driven net.now) counts.now }
    ensures { IsJudged net.now 2 result }
{
    let wire = first_at_two(counts)?;
    Some(Unsound::WireTwiceDriven(WireId::new(wire)))
}

/// The lowest wire that has no reader.
fn unread(net: &Netlist, counts: &Row<WireId, u8>) -> Option<Unsound>
    requires clear { IsClear net.now 2 }
    requires counts { Counts (number_of_wires net.now) (read net.now) counts.now }
    ensures { IsJudged net.now 3 result }
{
    let wire = first_at_none(counts)?;
    Some(Unsound::WireUnread(WireId::new(wire)))
}

/// The lowest wire that has two readers.
fn twice_read(net: &Netlist, counts: &Row<WireId, u8>) -> Option<Unsound>
    requires clear { IsClear net.now 3 }
    requires counts { Counts (number_of_wires net.now) (read net.now) counts.now }
    ensures { IsJudged net.now 4 result }
{
    let wire = first_at_two(counts)?;
    Some(Unsound::WireTwiceRead(WireId::new(wire)))
}

fn first_at_none(counts: &Row<WireId, u8>) -> Option<u32>
    ensures { result ≡ position (λ count. count == 0) counts.now }
{
    let _below = counts.len();
    number(none_at(counts.items()))
}

fn first_at_two(counts: &Row<WireId, u8>) -> Option<u32>
    ensures { result ≡ position (λ count. nat_le 2 count) counts.now }
{
    let _below = counts.len();
    number(two_at(counts.items()))
}

fn none_at(counts: &[u8]) -> Option<usize>
    ensures { result ≡ position (λ count. count == 0) counts.now }
{
    counts.iter().position(|count| *count == 0)
}

fn two_at(counts: &[u8]) -> Option<usize>
    ensures { result ≡ position (λ count. nat_le 2 count) counts.now }
{
    counts.iter().position(|count| 2 <= *count)
}

/// How often each wire is driven, up to 255.
fn driver_counts(alloc: Global, net: &Netlist) -> Result<Row<WireId, u8>, NoMemory>
    ensures { IfOk result (λ counts. Counts (number_of_wires net.now) (driven net.now) counts) }
{
    let mut counts = Row::filled(alloc, 0u8, net.wires())?;
    count_rails(net.input_rails(), &mut counts);
    count_outs(net.cells(), &mut counts);
    Ok(counts)
}

/// How often each wire is read, up to 255.
fn reader_counts(alloc: Global, net: &Netlist) -> Result<Row<WireId, u8>, NoMemory>
    ensures { IfOk result (λ counts. Counts (number_of_wires net.now) (read net.now) counts) }
{
    let mut counts = Row::filled(alloc, 0u8, net.wires())?;
    count_reads(net.cells(), &mut counts);
    count_rails(net.output_rails(), &mut counts);
    Ok(counts)
}

fn count_rails(rails: &Row<RailId, Rail>, counts: &mut Row<WireId, u8>)
    requires { wire_bound (map wire_of rails.now) ≤ length counts.old }
    ensures { counts.new ≡ with_wires counts.old (map wire_of rails.now) }
{
    for number in 0..rails.len() {
        count(rails.get(RailId::new(number)).wire, counts);
    }
}

fn count_outs(cells: &Row<CellId, Cell>, counts: &mut Row<WireId, u8>)
    requires { wire_bound (flat_map outs cells.now) ≤ length counts.old }
    ensures { counts.new ≡ with_wires counts.old (flat_map outs cells.now) }
{
    for number in 0..cells.len() {
        count_outs_of(*cells.get(CellId::new(number)), counts);
    }
}

fn count_reads(cells: &Row<CellId, Cell>, counts: &mut Row<WireId, u8>)
    requires { wire_bound (flat_map reads cells.now) ≤ length counts.old }
    ensures { counts.new ≡ with_wires counts.old (flat_map reads cells.now) }
{
    for number in 0..cells.len() {
        count_reads_of(*cells.get(CellId::new(number)), counts);
    }
}

fn count_outs_of(cell: Cell, counts: &mut Row<WireId, u8>)
    requires { wire_bound (outs cell) ≤ length counts.old }
    ensures { counts.new ≡ with_wires counts.old (outs cell) }
{
    match cell {
        Cell::La { out, .. } | Cell::Fa { out, .. } => count(out, counts),
        Cell::Split { left, right, .. } => {
            count(left, counts);
            count(right, counts);
        }
        Cell::Droc { q, n, .. } => {
            count_used(q, counts);
            count_used(n, counts);
        }
    }
}

fn count_reads_of(cell: Cell, counts: &mut Row<WireId, u8>)
    requires { wire_bound (reads cell) ≤ length counts.old }
    ensures { counts.new ≡ with_wires counts.old (reads cell) }
{
    match cell {
        Cell::La { a, b, .. } | Cell::Fa { a, b, .. } => {
            count(a, counts);
            count(b, counts);
        }
        Cell::Split { from, .. } => count(from, counts),
        Cell::Droc { feed, .. } => count(feed, counts),
    }
}

fn count_used(output: Option<WireId>, counts: &mut Row<WireId, u8>)
    requires { wire_bound (used output) ≤ length counts.old }
    ensures { counts.new ≡ with_wires counts.old (used output) }
{
    if let Some(wire) = output {
        count(wire, counts);
    }
}

/// Counts a wire once more.
fn count(wire: WireId, counts: &mut Row<WireId, u8>)
    requires { wire.number < length counts.old }
    ensures { counts.new ≡ with_wire counts.old wire.number }
{
    let more = counts.get(wire).saturating_add(1);
    counts.set(wire, more);
}
