//! Rails of one port and sign, brought together by sorting.

ghost use Rattle.std.specs.Prelude.{◌≡◌, ◌<◌, ◌≤◌, ◌/◌, ◌%◌, IfOk, Some, length, min, ◌==◌, if◌then◌else◌};
ghost use Rattle.cell_netlist.specs.Netlists.{most_lines};
ghost use Rattle.rail_checker.specs.Rails.{IsTwice, rail_number, key_of, keys_from, IsRepeated, lower_of};
ghost use Rattle.rail_checker.specs.Verdicts.{IsFirst};

use cell_netlist::Rail;
use pulse_ids::{Ident, NoMemory, RailId, Row, Sign};
use std::alloc::Global;

/// More than the number of any rail.
const NUMBERS: u64 = 1 << 27;

/// The lowest rail whose port and sign an earlier one has. It takes a word of memory a rail, and the time to sort
/// them.
pub(crate) fn first_twice(alloc: Global, rails: &Row<RailId, Rail>) -> Result<Option<u32>, NoMemory>
    requires { length rails.now ≤ most_lines }
    ensures { IfOk result (λ found. IsFirst (IsTwice rails.now) found) }
{
    let mut keys = rail_keys(alloc, rails)?;
    keys.sort_unstable();
    Ok(first_repeated(keys.as_slice()))
}

/// The keys of the rails.
fn rail_keys(alloc: Global, rails: &Row<RailId, Rail>) -> Result<Vec<u64>, NoMemory>
    requires { length rails.now ≤ most_lines }
    ensures { IfOk result (λ keys. keys.items ≡ keys_from 0 rails.now) }
{
    let mut keys = Vec::with_capacity(alloc, rails.len() as usize)?;
    for number in 0..rails.len() {
        keys.push(key(*rails.get(RailId::new(number)), number))?;
    }
    Ok(keys)
}

/// The port and sign of a rail, and below them its number.
fn key(rail: Rail, number: u32) -> u64
    requires { number < most_lines }
    ensures { result ≡ key_of rail number }
{
    rail_number(rail) * NUMBERS + number as u64
}

fn rail_number(rail: Rail) -> u64
    ensures { result ≡ rail_number rail }
{
    match rail.sign {
        Sign::Pos => 2 * rail.port as u64,
        Sign::Neg => 2 * rail.port as u64 + 1,
    }
}

/// The lowest number of a rail whose key stands right behind one of the same port and sign.
fn first_repeated(keys: &[u64]) -> Option<u32>
    ensures { IsFirst (IsRepeated keys.now (length keys.now)) result }
{
    let mut found = None;
    for place in 1..keys.len() {
        found = with_key(found, keys[place - 1], keys[place]);
    }
    found
}

/// The lowest number that was found, with one key more, which counts only behind one of the same port and sign.
fn with_key(found: Option<u32>, before: u64, key: u64) -> Option<u32>
    ensures { result ≡ if before / most_lines == key / most_lines then Some (lower_of found (key % most_lines)) else found }
{
    if before / NUMBERS == key / NUMBERS {
        Some(lower(found, (key % NUMBERS) as u32))
    } else {
        found
    }
}

/// The lower of a number and of one that was found before.
fn lower(found: Option<u32>, number: u32) -> u32
    ensures { result ≡ lower_of found number }
{
    match found {
        Some(found) => found.min(number),
        None => number,
    }
}
