//! Lines and the calls that they are.

use crate::building::{constant_told, depth_told, pair_told, spread_told};
use crate::worlds::{netlist_of, world_told};
use anyhow::{Context, Result, bail};
use byte_ports::MemorySink;
use cell_netlist::SoundNet;
use std::alloc::Global;
use text_pieces::{Piece, write_pieces};

/// The first word of a text, and what follows the blank behind it.
pub(crate) fn parted(text: &str) -> (&str, &str) {
    text.split_once(' ').unwrap_or((text, ""))
}

/// Two numbers.
fn two_numbers(text: &str) -> Result<(u16, u16)> {
    let (first, second) = parted(text);
    Ok((first.parse::<u16>()?, second.parse::<u16>()?))
}

/// Plays a line that calls a builder.
fn build(alloc: Global, word: &str, rest: &str, out: &mut MemorySink) -> Result<()> {
    match word {
        "spread" => spread_told(alloc, rest.parse::<u16>()?, out),
        "depth" => depth_told(alloc, rest.parse::<u16>()?, out),
        "pair" => {
            let (bit, outputs) = parted(rest);
            pair_told(
                alloc,
                bit == "1",
                outputs.contains('q'),
                outputs.contains('n'),
                out,
            )
        }
        "constant" => {
            let (ones, zeros) = two_numbers(rest)?;
            constant_told(alloc, ones, zeros, out)
        }
        _ => bail!("unknown first word"),
    }
}

/// A netlist that is read line by line.
#[derive(Drop)]
struct Told {
    text: String,
    net: Option<SoundNet>,
}

impl Told {
    /// Takes a line of a netlist.
    fn take(&mut self, alloc: Global, word: &str, line: &str) -> Result<()> {
        if word == "xsfq" {
            self.text.clear();
            self.net = None;
        }
        self.text.push_str(line)?;
        self.text.push('\n')?;
        if word == "end" {
            self.net = Some(netlist_of(alloc, self.text.as_bytes())?);
        }
        Ok(())
    }
}

/// Plays a line.
fn play(alloc: Global, line: &str, told: &mut Told, out: &mut MemorySink) -> Result<()> {
    let (word, rest) = parted(line);
    match word {
        "spread" | "depth" | "pair" | "constant" => build(alloc, word, rest, out),
        "world" => {
            let net = told
                .net
                .as_ref()
                .context("a netlist stands before its world")?;
            world_told(alloc, net, rest, out)
        }
        _ => told.take(alloc, word, line),
    }
}

/// Plays all lines, and writes each with what came of it.
pub(crate) fn play_all(alloc: Global, text: &str, out: &mut MemorySink) -> Result<()> {
    let mut told = Told {
        text: String::new(alloc),
        net: None,
    };
    for line in text.lines() {
        write_pieces(&[Piece::Text(line.as_bytes()), Piece::Byte(b'\n')], out)?;
        play(alloc, line, &mut told, out)?;
    }
    Ok(())
}
