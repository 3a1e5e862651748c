//! The deltas of the binary spelling.

ghost use Rattle.std.specs.Prelude.{◌≡◌, ◌≤◌, ◌<◌, ◌%◌, ◌-◌, length, slice_index, Some, None, IfOk, IfErr};
ghost use Rattle.aiger_reader.specs.Deltas.{delta_of, delta_value, groups_value, first_delta_refusal, second_delta_refusal};

use crate::refusals::UnitRefusal;

/// The seven bits of the byte at this place, or 0 where there is none.
fn group(unit: &[u8], place: usize) -> u64
    ensures value { result ≡ slice_index unit.now place % 128 }
    ensures small { result < 128 }
{
    if place < unit.len() {
        (unit[place] % 128) as u64
    } else {
        0
    }
}

/// The number of at most five groups.
#[tactic(auto, using(crate::proofs::Groups::five))]
fn groups(unit: &[u8]) -> u64
    requires { length unit.now ≤ 5 }
    ensures { result ≡ groups_value unit.now }
{
    group(unit, 0)
        + 128
            * (group(unit, 1)
                + 128 * (group(unit, 2) + 128 * (group(unit, 3) + 128 * group(unit, 4))))
}

/// The number of a delta, or None where it has more than five bytes or is 2^32 or more.
pub(crate) fn delta(unit: &[u8]) -> Option<u32>
    ensures { result ≡ delta_of unit.now }
{
    if unit.len() > 5 {
        return None;
    }
    let value = groups(unit);
    if value <= u32::MAX as u64 {
        Some(value as u32)
    } else {
        None
    }
}

/// The first literal of a conjunction with this left side.
pub(crate) fn first_delta(left: u32, unit: &[u8]) -> Result<u32, UnitRefusal>
    ensures ok { IfOk result (λ literal. (literal ≡ left - delta_value unit.now) × (first_delta_refusal left (delta_of unit.now) ≡ None)) }
    ensures err { IfErr result (λ refusal. first_delta_refusal left (delta_of unit.now) ≡ Some refusal) }
{
    match delta(unit) {
        Some(delta) if delta != 0 && delta <= left => Ok(left - delta),
        _ => Err(UnitRefusal::BadDelta),
    }
}

/// The second literal of a conjunction with this first one.
pub(crate) fn second_delta(literal: u32, unit: &[u8]) -> Result<u32, UnitRefusal>
    ensures ok { IfOk result (λ second. (second ≡ literal - delta_value unit.now) × (second_delta_refusal literal (delta_of unit.now) ≡ None)) }
    ensures err { IfErr result (λ refusal. second_delta_refusal literal (delta_of unit.now) ≡ Some refusal) }
{
    match delta(unit) {
        Some(delta) if delta <= literal => Ok(literal - delta),
        _ => Err(UnitRefusal::BadDelta),
    }
}
