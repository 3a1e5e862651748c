//! Trees of splitters, latch pairs and constants on small netlists.

ghost use Rattle.std.specs.Prelude.{◌≡◌, ◌≤◌, ◌⊎◌, true, [], IfOk};
ghost use Rattle.cell_netlist.specs.Netlists.{number_of_wires};

use anyhow::{Result, bail};
use byte_ports::{Failed, MemorySink, write_all};
use cell_netlist::{Cell, Netlist, Rail};
use droc_pairs::{begin_pair, constant, finish_pair};
use netlist_writer::write_netlist;
use pulse_ids::{Ident, NoMemory, Sign, WireId};
use splitter_trees::{Leaves, spread};
use std::alloc::Global;
use text_pieces::write_numbered;

/// A netlist whose only line is an input rail on wire 0.
fn one_rail(alloc: Global) -> Result<Netlist, NoMemory>
    ensures rail { IfOk result (λ net. number_of_wires net ≡ 1) }
    ensures cells { IfOk result (λ net. net.cells ≡ []) }
{
    let mut net = Netlist::new(alloc, 1, 0);
    net.add_input(Rail {
        port: 0,
        sign: Sign::Pos,
        wire: WireId::new(0),
    })?;
    Ok(net)
}

/// The netlist of one input rail on wire 0 that is spread over so many readers, and the leaves.
fn spread_rail(alloc: Global, readers: u16) -> Result<(Netlist, Leaves), NoMemory>
    requires { 1 ≤ readers }
{
    let mut net = one_rail(alloc)?;
    let leaves = spread(alloc, &mut net, WireId::new(0), readers as u32)?;
    Ok((net, leaves))
}

/// Writes a line of the number of leaves and of their wires.
fn write_leaves(name: &[u8], leaves: &Leaves, out: &mut MemorySink) -> Result<(), Failed> {
    write_numbered(name, leaves.len(), b":", out)?;
    for k in 0..leaves.len() {
        write_numbered(b" ", leaves.leaf(k).number(), b"", out)?;
    }
    write_all(out, b"\n")
}

/// Tells the tree over so many readers.
pub(crate) fn spread_told(alloc: Global, readers: u16, out: &mut MemorySink) -> Result<()> {
    if readers == 0 {
        bail!("a tree has readers");
    }
    let (net, leaves) = spread_rail(alloc, readers)?;
    write_netlist(&net, out)?;
    Ok(write_leaves(b"leaves ", &leaves, out)?)
}

/// How many splitters stand above each wire, where each splitter stands behind the one that it reads from.
fn depths(alloc: Global, net: &Netlist) -> Result<Vec<u32>, NoMemory> {
    let mut depths = Vec::with_capacity(alloc, 1)?;
    depths.push(0)?;
    for cell in net.cells().items() {
        if let Cell::Split { from, .. } = cell {
            let above = match depths.get(from.number() as usize) {
                Some(depth) => u32::saturating_add(*depth, 1),
                None => 0,
            };
            depths.push(above)?;
            depths.push(above)?;
        }
    }
    Ok(depths)
}

/// The least and the greatest depth of a leaf.
fn depth_range(leaves: &Leaves, depths: &[u32]) -> (u32, u32) {
    let mut least = u32::MAX;
    let mut greatest = 0;
    for k in 0..leaves.len() {
        if let Some(depth) = depths.get(leaves.leaf(k).number() as usize) {
            least = least.min(*depth);
            greatest = greatest.max(*depth);
        }
    }
    (least, greatest)
}

/// Tells how deep the tree over so many readers is.
pub(crate) fn depth_told(alloc: Global, readers: u16, out: &mut MemorySink) -> Result<()> {
    if readers == 0 {
        bail!("a tree has readers");
    }
    let (net, leaves) = spread_rail(alloc, readers)?;
    let depths = depths(alloc, &net)?;
    let (least, greatest) = depth_range(&leaves, &depths);
    write_numbered(b"cells ", net.cells().len(), b"\n", out)?;
    write_numbered(b"wires ", net.wires(), b"\n", out)?;
    write_numbered(b"leaves ", leaves.len(), b"\n", out)?;
    write_numbered(b"least depth ", least, b"\n", out)?;
    Ok(write_numbered(b"greatest depth ", greatest, b"\n", out)?)
}

/// Adds a pair that takes wire 0 to the netlist of one input rail, and answers the pair's link.
fn pair(alloc: Global, init: bool, q: bool, n: bool) -> Result<(Netlist, u32), NoMemory>
    requires { (q ≡ true) ⊎ (n ≡ true) }
{
    let mut net = one_rail(alloc)?;
    let half = begin_pair(&mut net, init, q, n)?;
    let link = net.wires();
    finish_pair(&mut net, half, WireId::new(0))?;
    Ok((net, link))
}

/// Tells a latch pair.
pub(crate) fn pair_told(
    alloc: Global,
    init: bool,
    q: bool,
    n: bool,
    out: &mut MemorySink,
) -> Result<()> {
    if !q && !n {
        bail!("a pair has outputs");
    }
    let (net, link) = pair(alloc, init, q, n)?;
    write_netlist(&net, out)?;
    Ok(write_numbered(b"link ", link, b"\n", out)?)
}

/// Tells a constant with so many readers of 1 and of 0.
pub(crate) fn constant_told(
    alloc: Global,
    ones: u16,
    zeros: u16,
    out: &mut MemorySink,
) -> Result<()> {
    if ones == 0 && zeros == 0 {
        bail!("a constant has readers");
    }
    let mut net = Netlist::new(alloc, 0, 0);
    let leaves = constant(alloc, &mut net, ones as u32, zeros as u32)?;
    write_netlist(&net, out)?;
    write_leaves(b"ones ", &leaves.one, out)?;
    Ok(write_leaves(b"zeros ", &leaves.zero, out)?)
}
