//! The lines of a case.

use crate::cases::{Call, Case, Turns};
use crate::escapes::add_unescaped;
use anyhow::{Context, Result, bail};
use hex::FromHex;
use std::alloc::Global;

/// The first word of a line, and what follows the blank behind it.
pub(crate) fn parted(line: &str) -> (&str, &str) {
    line.split_once(' ').unwrap_or((line, ""))
}

/// Adds the bytes of a text, which are a line or a part of one, or the same many times.
pub(crate) fn add_text(alloc: Global, manner: &str, text: &str, bytes: &mut Vec<u8>) -> Result<()> {
    match manner {
        "" => {
            add_unescaped(text, bytes)?;
            bytes.push(b'\n')?;
            Ok(())
        }
        "-" => add_unescaped(text, bytes),
        "*" => add_repeated(alloc, text, bytes),
        _ => bail!("unknown first word"),
    }
}

/// Adds the bytes of a text as often as the number before it says.
fn add_repeated(alloc: Global, text: &str, bytes: &mut Vec<u8>) -> Result<()> {
    let (times, text) = parted(text);
    let times = times.parse::<u32>().context("how often a text stands")?;
    let mut piece = Vec::new(alloc);
    add_unescaped(text, &mut piece)?;
    for _ in 0..times {
        bytes.extend_from_slice(&piece)?;
    }
    Ok(())
}

/// Adds the numbers of a line.
fn add_numbers(text: &str, numbers: &mut Vec<u64>) -> Result<()> {
    for word in text.split_whitespace() {
        numbers.push(word.parse::<u64>().context("a number")?)?;
    }
    Ok(())
}

/// The words of a command line, each of which may have escapes.
fn words_of(alloc: Global, text: &str) -> Result<Vec<String>> {
    let mut words = Vec::new(alloc);
    for word in text.split_whitespace() {
        let mut bytes = Vec::new(alloc);
        add_unescaped(word, &mut bytes)?;
        words.push(String::from_utf8(bytes).context("a word is no UTF-8")?)?;
    }
    Ok(words)
}

/// The number that a text is, where it is not empty.
fn told_number(text: &str) -> Result<Option<u64>> {
    if text.is_empty() {
        return Ok(None);
    }
    Ok(Some(text.parse::<u64>().context("a number")?))
}

/// Adds calls that fail in their turn: their kind, and how many are made where that is told.
fn add_turns(text: &str, turns: &mut Vec<Turns>) -> Result<()> {
    let (kind, count) = parted(text);
    let call = match kind {
        "reads" => Call::Read,
        "writes" => Call::Write,
        "flushes" => Call::Flush,
        "notes" => Call::Note,
        _ => bail!("a kind of calls is one of reads, writes, flushes and notes"),
    };
    let count = told_number(count)?;
    turns.push(Turns { call, count })?;
    Ok(())
}

/// Adds a line that is no text: how the run is made, and numbers that are wanted of it.
fn add_setting(alloc: Global, word: &str, rest: &str, case: &mut Case) -> Result<()> {
    match word {
        "words" => {
            case.commands.push(words_of(alloc, rest)?)?;
            Ok(())
        }
        "piped" => {
            let lines = told_number(rest)?.unwrap_or(0);
            case.piped = Some(usize::try_from(lines).unwrap_or(usize::MAX));
            Ok(())
        }
        "pieces" => add_numbers(rest, &mut case.pieces),
        "reads" => add_numbers(rest, &mut case.failing.reads),
        "writes" => add_numbers(rest, &mut case.failing.writes),
        "flushes" => add_numbers(rest, &mut case.failing.flushes),
        "notes" => add_numbers(rest, &mut case.failing.notes),
        "each" => add_turns(rest, &mut case.turns),
        _ => add_figure(word, rest, case),
    }
}

/// Adds a number that is wanted.
fn add_figure(word: &str, rest: &str, case: &mut Case) -> Result<()> {
    match word {
        "code" => case.wanted.code = rest.parse::<u8>().context("a code")?,
        "size" => case.wanted.size = Some(rest.parse::<usize>().context("a size")?),
        "left" => case.wanted.left = Some(rest.parse::<usize>().context("a number of bytes")?),
        "sha256" => {
            let digest = <[u8; 32] as FromHex>::from_hex(rest).context("a digest")?;
            case.wanted.digest = Some(digest);
        }
        _ => bail!("unknown first word"),
    }
    Ok(())
}

/// Adds a line of a case.
pub(crate) fn add_line(alloc: Global, line: &str, case: &mut Case) -> Result<()> {
    let (word, rest) = parted(line);
    if let Some(manner) = word.strip_prefix("in") {
        add_text(alloc, manner, rest, &mut case.input)
    } else if let Some(manner) = word.strip_prefix("out") {
        add_text(alloc, manner, rest, &mut case.wanted.output)
    } else if let Some(manner) = word.strip_prefix("end") {
        add_text(alloc, manner, rest, &mut case.wanted.end)
    } else if word == "note" {
        add_text(alloc, "", rest, &mut case.wanted.note)
    } else {
        add_setting(alloc, word, rest, case)
    }
}
