//! Compares random machines with their netlists: standard input has the seed of the first machine and how many there are.
//!
//! Each machine has three inputs, three latches, up to 40 conjunctions and four outputs. For each choice of rails its netlist
//! of version two is checked, and three cycles of it on random vectors, with the pulses delivered in a random order, are
//! compared with those of the machine, and the cells that the state lines name with the machine's states. The seed of each machine that differs is printed, and last how many agree.
#![tactic(auto)]

mod agreeing;
mod building;
mod runs;

use agreeing::all_agree;
use anyhow::{Context, Result};
use std::io;

/// The seed of the first machine, and how many machines there are.
fn task(text: &str) -> Result<(u32, u32)> {
    let (seed, count) = text
        .trim()
        .split_once(' ')
        .context("two numbers are wanted")?;
    Ok((seed.parse::<u32>()?, count.parse::<u32>()?))
}

fn main(rt: HostRuntime) -> Result<()> {
    let (first, count) = task(&io::read_to_string(rt.alloc(), rt.stdin())?)?;
    let mut agreeing = 0u32;
    for place in 0..count {
        let seed = first.wrapping_add(place);
        if all_agree(rt.alloc(), seed)? {
            agreeing = agreeing.wrapping_add(1);
        } else {
            println!(rt; "the machine of seed {seed} differs from its netlist")?;
        }
    }
    println!(rt; "{agreeing} of {count} machines agree with their netlists")?;
    Ok(())
}
