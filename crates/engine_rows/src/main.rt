//! Plays calls of the builders of cells and of the engine: each line of standard input is one, and standard output has the line and what came of it.
//!
//! - `spread N`: the netlist of one input rail on wire 0 that is spread over N readers, and the leaves from left to right.
//! - `depth N`: of the same its numbers of cells, wires and leaves, and the least and the greatest depth of a leaf.
//! - `pair B S`: the netlist of that rail with a latch pair that takes it, of first bit B and the outputs of S (`q`, `n` or `qn`),
//!   and the pair's link.
//! - `constant A B`: the netlist of a constant with A readers of 1 and B readers of 0, and the leaves of both.
//! - `xsfq 1` and the lines behind it up to `end` are a netlist, which the checker has to find sound.
//! - `world CALL ..`: calls of a world of that netlist, each with its answer and what the world shows then. A call is `excite BITS`, `relax`,
//!   `deliver WIRE` or `place K`, for the pending pulse at place K.
#![tactic(auto)]

mod building;
mod playing;
mod worlds;

use byte_ports::MemorySink;
use std::io;

fn main(rt: HostRuntime) -> anyhow::Result<()> {
    let text = io::read_to_string(rt.alloc(), rt.stdin())?;
    let mut out = MemorySink::new(rt.alloc(), 4096, Vec::new(rt.alloc()));
    playing::play_all(rt.alloc(), &text, &mut out)?;
    print!(rt; "{}", std::str::from_utf8(out.taken())?)?;
    Ok(())
}
