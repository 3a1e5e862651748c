//! Latch pairs.

ghost use Rattle.std.specs.Prelude.{◌≡◌, ◌≤◌, ◌<◌, ◌+◌, ◌⊎◌, ◌^◌, ◌∷◌, [], true, length, IfOk, OnOk, OnErr};
ghost use Rattle.pulse_ids.specs.Quantities.{greatest_of};
ghost use Rattle.pulse_ids.specs.declared.quantities.Quantity.TheVariants.{Wires};
ghost use Rattle.cell_netlist.specs.Netlists.{number_of_wires};
ghost use Rattle.splitter_trees.specs.Spreading.{with_cells};
ghost use Rattle.droc_pairs.specs.Pairs.{asked_output, wires_for, begun_back, front_of, StandsBack, IsPair};

use cell_netlist::{Cell, Netlist, Role, another_feed, places_of_wires};
use pulse_ids::{CellId, Ident, NoMemory, WireId};

/// A latch pair whose front is still to come. It may be dropped, and then the pair stays unfinished.
#[derive(Clone, Copy, Debug, PartialEq, Eq)]
pub struct HalfPair {
    /// The back.
    pub back: CellId,
    /// Its preload, the latch's first bit.
    pub init: bool,
    /// The wire of its output `q`, where that was asked for.
    pub q: Option<WireId>,
    /// The wire of its output `n`, where that was asked for.
    pub n: Option<WireId>,
}

// An output on a wire, where it is asked for.
pub(crate) fn output_on(asked: bool, wire: u32) -> Option<WireId>
    ensures { result ≡ asked_output asked wire }
{
    if asked { Some(WireId::new(wire)) } else { None }
}

// How many wires an output takes.
pub(crate) fn wires_of(asked: bool) -> u32
    ensures value { result ≡ wires_for asked }
    ensures few { result ≤ 1 }
{
    if asked { 1 } else { 0 }
}

/// Begins a latch pair: adds its back, whose preload is the latch's first bit. The asked outputs, of which there is
/// at least one, take the next wires, `q` before `n`. Until the pair is finished the back's feed is wire 0,
/// whatever that is, so the netlist is not to be judged before.
///
/// The netlist has fewer than 2^26 cells, and at most 4,194,300 wires. Where memory is refused it is unchanged.
#[tactic(auto, using(crate::proofs::CallerLemmas::begun_stands))]
pub fn begin_pair(net: &mut Netlist, init: bool, q: bool, n: bool) -> Result<HalfPair, NoMemory>
    requires asked { (q ≡ true) ⊎ (n ≡ true) }
    requires cells { length net.old.cells < 2 ^ 26 }
    requires wires { number_of_wires net.old + 4 ≤ greatest_of Wires }
    ensures added { OnOk result (net.new ≡ with_cells net.old (begun_back (number_of_wires net.old) init q n ∷ [])) }
    ensures wires { OnOk result (number_of_wires net.new ≡ number_of_wires net.old + wires_for q + wires_for n) }
    ensures stands { IfOk result (λ half. StandsBack net.new half.back.number half.init) }
    ensures back { IfOk result (λ half. half.back.number ≡ length net.old.cells) }
    ensures init { IfOk result (λ half. half.init ≡ init) }
    ensures q { IfOk result (λ half. half.q ≡ asked_output q (number_of_wires net.old)) }
    ensures n { IfOk result (λ half. half.n ≡ asked_output n (number_of_wires net.old + wires_for q)) }
    ensures unchanged { OnErr result (net.new ≡ net.old) }
{
    let next = net.wires();
    let on_q = output_on(q, next);
    let on_n = output_on(n, next + wires_of(q));
    let back = net.add_cell(Cell::Droc {
        role: Role::Back,
        preload: init,
        feed: WireId::new(0),
        q: on_q,
        n: on_n,
    })?;
    Ok(HalfPair {
        back,
        init,
        q: on_q,
        n: on_n,
    })
}

/// Finishes a latch pair: adds its front, which takes `next`, the positive rail of the latch's next state, and feeds
/// the back by it over a new wire. The front's preload is the complement of the back's.
///
/// The half names a back of the netlist with its preload, and `next` is one of the netlist's wires. The netlist has
/// fewer than 2^26 cells, and at most 4,194,300 wires. Where memory is refused it is unchanged.
pub fn finish_pair(net: &mut Netlist, half: HalfPair, next: WireId) -> Result<(), NoMemory>
    requires back { StandsBack net.old half.back.number half.init }
    requires next { next.number < number_of_wires net.old }
    requires cells { length net.old.cells < 2 ^ 26 }
    requires wires { number_of_wires net.old + 4 ≤ greatest_of Wires }
    ensures pair { OnOk result (IsPair net.old net.new half.back.number half.init next.number) }
    ensures unchanged { OnErr result (net.new ≡ net.old) }
{
    let link = WireId::new(net.wires());
    add_front(net, half.init, next, link)?;
    places_of_wires();
    another_feed();
    net.set_feed(half.back, link);
    Ok(())
}

// Adds the front of a latch of this first bit.
fn add_front(net: &mut Netlist, init: bool, next: WireId, link: WireId) -> Result<(), NoMemory>
    requires next { next.number < number_of_wires net.old }
    requires link { link.number ≡ number_of_wires net.old }
    requires cells { length net.old.cells < 2 ^ 26 }
    requires wires { number_of_wires net.old + 4 ≤ greatest_of Wires }
    ensures added { OnOk result (net.new ≡ with_cells net.old (front_of init next.number (number_of_wires net.old) ∷ [])) }
    ensures wires { OnOk result (number_of_wires net.new ≡ number_of_wires net.old + 1) }
    ensures unchanged { OnErr result (net.new ≡ net.old) }
{
    net.add_cell(Cell::Droc {
        role: Role::Front,
        preload: !init,
        feed: next,
        q: Some(link),
        n: None,
    })?;
    Ok(())
}
