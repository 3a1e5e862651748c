//! The checks of a line of a section.

ghost use Rattle.std.specs.Prelude.{◌≡◌, ◌<◌, ◌^◌, ◌+◌, ◌*◌, Some, None};
ghost use Rattle.aiger_reader.specs.LineChecks.{is_left, left_refusal, literal_refusal, unset_refusal, reset_refusal, input_refusal, latch_refusal, output_refusal, and_refusal};

use crate::refusals::UnitRefusal;
use source_machine::Unset;

fn is_left(variables: u32, literal: u32) -> bool
    requires { variables < 2 ^ 30 }
    ensures { result ≡ is_left variables literal }
{
    literal % 2 == 0 && (2 <= literal && literal <= 2 * variables + 1)
}

fn left_refusal(variables: u32, literal: u32) -> Option<UnitRefusal>
    requires { variables < 2 ^ 30 }
    ensures { result ≡ left_refusal variables literal }
{
    if is_left(variables, literal) {
        None
    } else {
        Some(UnitRefusal::OutOfRange(literal))
    }
}

fn literal_refusal(variables: u32, literal: u32) -> Option<UnitRefusal>
    requires { variables < 2 ^ 30 }
    ensures { result ≡ literal_refusal variables literal }
{
    if literal <= 2 * variables + 1 {
        None
    } else {
        Some(UnitRefusal::OutOfRange(literal))
    }
}

fn unset_refusal(unset: Unset, latch: u32) -> Option<UnitRefusal>
    ensures { result ≡ unset_refusal unset latch }
{
    match unset {
        Unset::Refuse => Some(UnitRefusal::NoFixedInit(latch)),
        Unset::Zero | Unset::One => None,
    }
}

fn reset_refusal(unset: Unset, latch: u32, left: u32, reset: u32) -> Option<UnitRefusal>
    ensures { result ≡ reset_refusal unset latch left reset }
{
    if reset <= 1 {
        None
    } else if reset == left {
        unset_refusal(unset, latch)
    } else {
        Some(UnitRefusal::OutOfRange(reset))
    }
}

/// Why the left side of an input is refused.
pub(crate) fn input_refusal(variables: u32, said: Option<u32>) -> Option<UnitRefusal>
    requires { variables < 2 ^ 30 }
    ensures { result ≡ input_refusal variables said }
{
    match said {
        None => Some(UnitRefusal::BadLine),
        Some(left) => left_refusal(variables, left),
    }
}

/// Why the left side, the next literal and the reset of a latch are refused.
pub(crate) fn latch_refusal(
    unset: Unset,
    variables: u32,
    latch: u32,
    said: Option<(u32, u32, u32)>,
) -> Option<UnitRefusal>
    requires { variables < 2 ^ 30 }
    ensures { result ≡ latch_refusal unset variables latch said }
{
    match said {
        None => Some(UnitRefusal::BadLine),
        Some((left, next, reset)) => left_refusal(variables, left).or(literal_refusal(
            variables, next,
        ).or(reset_refusal(unset, latch, left, reset))),
    }
}

/// Why the literal of an output is refused.
pub(crate) fn output_refusal(variables: u32, said: Option<u32>) -> Option<UnitRefusal>
    requires { variables < 2 ^ 30 }
    ensures { result ≡ output_refusal variables said }
{
    match said {
        None => Some(UnitRefusal::BadLine),
        Some(literal) => literal_refusal(variables, literal),
    }
}

/// Why the three literals of a conjunction are refused.
pub(crate) fn and_refusal(variables: u32, said: Option<(u32, u32, u32)>) -> Option<UnitRefusal>
    requires { variables < 2 ^ 30 }
    ensures { result ≡ and_refusal variables said }
{
    match said {
        None => Some(UnitRefusal::BadLine),
        Some((left, first, second)) => left_refusal(variables, left).or(literal_refusal(
            variables, first,
        ).or(literal_refusal(variables, second))),
    }
}
