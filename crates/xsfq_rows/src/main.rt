//! The program of rows: it reads cases from standard input, each with words, an input and what is wanted of the run, and
//! calls `run` over ports in memory for each. It prints a line for each run that differs, and last how many passed.
//!
//! `cases/README.md` at the top tells the form of a case.
#![tactic(auto)]

mod cases;
mod escapes;
mod judging;
mod lines;
mod rows;
mod trying;
mod turns;

use std::io;
use std::process::ExitCode;

fn main(rt: HostRuntime) -> anyhow::Result<ExitCode> {
    let text = io::read_to_string(rt.alloc(), rt.stdin())?;
    let cases = rows::cases_of(rt.alloc(), &text)?;
    let tally = judging::judge_all(&rt, rt.alloc(), &cases)?;
    println!(rt; "{} passed, {} failed", tally.passed, tally.failed)?;
    Ok(if tally.failed == 0 {
        ExitCode::SUCCESS
    } else {
        ExitCode::FAILURE
    })
}
