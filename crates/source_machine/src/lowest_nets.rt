//! The lowest net of a fault.

ghost use Rattle.std.specs.Prelude.{◌≡◌, ◌<◌, ◌^◌, ℕ, IfOk, length, map, true, false, if◌then◌else◌, replicate, nat_le, Some, IfSome};
ghost use Rattle.std.specs.List.{position};
ghost use Rattle.pulse_ids.specs.Lists.{IsIn};
ghost use Rattle.source_machine.specs.LowestNets.{MarksAll, Counts, IsFirst, IsFirstTwice, IsFirstMissing, IsUnknownIn, lower_of};

use crate::machines::Equation;
use dependency_order::Order;
use pulse_ids::{Ident, NoMemory};
use std::alloc::Global;

/// So many bits, all 0.
pub(crate) fn clear_bits(alloc: Global, count: usize) -> Result<Vec<bool>, NoMemory>
    ensures { IfOk result (λ bits. bits.items ≡ replicate count false) }
{
    Ok(vec![in alloc; false; count]?)
}

/// Gives the bits of these nets the value.
pub(crate) fn set_bits(bits: &mut Vec<bool>, nets: &[u32], value: bool)
    requires { (net : ℕ) → IsIn net nets.now → net < length bits.old.items }
    ensures { MarksAll bits.old.items nets.now value bits.new.items }
{
    for net in nets {
        bits[*net as usize] = value;
    }
}

/// How often each net stands in the list, or 255 where it stands more often.
fn counted(alloc: Global, count: usize, nets: &[u32]) -> Result<Vec<u8>, NoMemory>
    requires { (net : ℕ) → IsIn net nets.now → net < count }
    ensures { IfOk result (λ counts. Counts count nets.now counts.items) }
{
    let mut counts = vec![in alloc; 0u8; count]?;
    for net in nets {
        counts[*net as usize] = counts[*net as usize].saturating_add(1);
    }
    Ok(counts)
}

fn first_at_two(counts: &[u8]) -> Option<usize>
    ensures { result ≡ position (λ count. nat_le 2 count) counts.now }
{
    counts.iter().position(|count| 2 <= *count)
}

fn first_set(bits: &[bool]) -> Option<usize>
    ensures { result ≡ position (λ bit. bit) bits.now }
{
    bits.iter().position(|bit| *bit)
}

/// A place as the number of a net.
fn number(place: Option<usize>) -> Option<u32>
    requires { IfSome place (λ n. n < 2 ^ 32) }
    ensures { result ≡ place }
{
    match place {
        Some(place) => Some(place as u32),
        None => None,
    }
}

/// The lowest net that stands in the list more than once. Each net is below the count.
pub(crate) fn first_twice(
    alloc: Global,
    count: usize,
    nets: &[u32],
) -> Result<Option<u32>, NoMemory>
    requires few { count < 2 ^ 32 }
    requires fit { (net : ℕ) → IsIn net nets.now → net < count }
    ensures { IfOk result (λ found. IsFirstTwice nets.now found) }
{
    let counts = counted(alloc, count, nets)?;
    Ok(number(first_at_two(counts.as_slice())))
}

/// The lowest net that stands in the first list and not in the second. Each net is below the count.
pub(crate) fn first_missing(
    alloc: Global,
    count: usize,
    nets: &[u32],
    removed: &[u32],
) -> Result<Option<u32>, NoMemory>
    requires few { count < 2 ^ 32 }
    requires nets_fit { (net : ℕ) → IsIn net nets.now → net < count }
    requires removed_fit { (net : ℕ) → IsIn net removed.now → net < count }
    ensures { IfOk result (λ found. IsFirstMissing nets.now removed.now found) }
{
    let mut bits = clear_bits(alloc, count)?;
    set_bits(&mut bits, nets, true);
    set_bits(&mut bits, removed, false);
    Ok(number(first_set(bits.as_slice())))
}

/// The lower of a net and of one that was found before.
fn lower(found: Option<u32>, net: u32) -> u32
    ensures { result ≡ lower_of found net }
{
    match found {
        Some(found) => found.min(net),
        None => net,
    }
}

/// The lowest net that was found, with one net more, which counts only where it isn't known.
fn with_net(found: Option<u32>, net: u32, known: bool) -> Option<u32>
    ensures { result ≡ if known then found else Some (lower_of found net) }
{
    if known {
        found
    } else {
        Some(lower(found, net))
    }
}

/// The lowest net of these equations that the order doesn't make known.
pub(crate) fn first_unknown(equations: &[Equation], order: &Order) -> Option<u32>
    requires { (net : ℕ) → IsIn net (map (λ equation. equation.net.number) equations.now) → net < length order.now.known }
    ensures { IsFirst (IsUnknownIn (map (λ equation. equation.net.number) equations.now) order.now.known) result }
{
    let mut found = None;
    for equation in equations {
        let net = equation.net.number();
        found = with_net(found, net, order.knows(net));
    }
    found
}
