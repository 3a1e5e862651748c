//! The pulse engine. Its clauses rest on the law `readers_of_wires`, whose calls do nothing.

ghost use Rattle.std.specs.Prelude.{◌≡◌, ◌<◌, ◌≤◌, ◌↔◌, [], ℕ, if◌then◌else◌, true, false, length, IfOk, None, Some, slice_get};
ghost use Rattle.cell_netlist.specs.declared.kinds.CellState.{CellState};
ghost use Rattle.cell_netlist.specs.declared.kinds.Held.TheVariants.{Rest};
ghost use Rattle.cell_netlist.specs.declared.kinds.Phase.TheVariants.{Excite, Relax};
ghost use Rattle.pulse_ids.specs.declared.quantities.Quantity.TheVariants.{Wires};
ghost use Rattle.pulse_ids.specs.Lists.{IsIn, occurrences};
ghost use Rattle.pulse_ids.specs.Quantities.{greatest_of};
ghost use Rattle.cell_netlist.specs.Netlists.{number_of_wires};
ghost use Rattle.cell_netlist.specs.World.{start, IsAtRest};
ghost use Rattle.pulse_world.specs.Worlds.{state_of, phase_of, opened_world, DeliversAt, IsWorld};

use crate::opening::{append_emitted, open_phase};
use crate::pending::PendingQueue;
use crate::rails::RailCounts;
use crate::reacting::{Target, react_at, target_of};
use crate::states::CellStates;
use cell_netlist::{CellState, Held, Phase, SoundNet, readers_of_wires};
use core::mem::replace_with;
use pulse_ids::{CellId, Ident, NoMemory, RailId, WireId};
use std::alloc::Global;
use std::marker::Model;

/// The pulses of a sound netlist: what each cell keeps, which wires have a pulse pending, and which output rails
/// pulsed in the phase. After `new` no call takes memory, and each state is one that a run of the netlist reaches.
#[derive(Debug, Drop)]
pub struct World<'a> {
    net: &'a SoundNet,
    opened: Option<Phase>,
    vector: Vec<bool>,
    cell_states: CellStates<'a>,
    pending: PendingQueue,
    counted: RailCounts,
}

impl<'a> Model for World<'a> {
    ghost use Rattle.std.specs.Prelude.{◌≡◌};
    ghost use Rattle.cell_netlist.specs.Netlists.{number_of_wires};
    ghost use Rattle.pulse_world.specs.Worlds.{PlainWorld, world_of, IsWorld};

    ghost Value = { PlainWorld };

    ghost view = { λ world. world_of world.net.now world.opened world.vector.items world.cell_states.states world.pending.wires world.counted };

    ghost invariant = { λ world. IsWorld (world_of world.net.now world.opened world.vector.items world.cell_states.states world.pending.wires world.counted)
        × (world.pending.bound ≡ number_of_wires world.net.now) × (world.cell_states.cells ≡ world.net.now.cells) };
}

impl<'a> World<'a> {
    /// A world at its start: LA and FA rest, DROCs hold their preload, and nothing is pending. It takes all the
    /// memory that the world ever has.
    pub fn new(alloc: Global, net: &'a SoundNet) -> Result<World<'a>, NoMemory>
        ensures net { IfOk result (λ world. world.net ≡ net.now) }
        ensures start { IfOk result (λ world. state_of world ≡ start net.now) }
        ensures settled { IfOk result (λ world. world.queue ≡ []) }
        ensures opened { IfOk result (λ world. world.opened ≡ None) }
    {
        let lines = net.net();
        let wires = lines.wires();
        let vector = Vec::from_elem(alloc, false, lines.inputs() as usize)?;
        let cell_states = CellStates::new(alloc, lines.cells())?;
        let pending = PendingQueue::new(alloc, wires)?;
        let counted = RailCounts::new(alloc, lines.output_rails().len())?;
        Ok(World {
            net,
            opened: None,
            vector,
            cell_states,
            pending,
            counted,
        })
    }

    /// The phase that was opened last, and relax before the first opening.
    ///
    /// Its clauses give all that is always true of a world: some run reaches it, and its pending queue has each wire
    /// of the netlist at most once, and no other.
    pub fn phase(&self) -> Phase
        ensures opened { result ≡ phase_of self.now.opened }
        ensures world { IsWorld self.now }
        ensures once { (wire : ℕ) → occurrences wire self.now.queue ≤ 1 }
        ensures below { (wire : ℕ) → IsIn wire self.now.queue → wire < number_of_wires self.now.net }
    {
        self.opened.unwrap_or(Phase::Relax)
    }

    /// Opens excite of the next cycle with its vector, one bit an input port. The phase is relax, and nothing is
    /// pending. The pending queue is then the wires of the pulsed input rails in the order of their lines, and behind
    /// them those on which DROCs emitted, in the order of the cells.
    pub fn begin_excite(&mut self, inputs: &[bool])
        requires phase { phase_of self.old.opened ≡ Relax }
        requires settled { self.old.queue ≡ [] }
        requires width { length inputs.now ≡ self.old.net.inputs }
        ensures { self.new ≡ opened_world Excite inputs.now self.old }
    {
        replace_with(self, inputs, excited);
    }

    /// Opens relax of the cycle, with the vector of its excite. The phase is excite, and nothing is pending. The
    /// pending queue is as after `begin_excite`.
    pub fn begin_relax(&mut self)
        requires phase { phase_of self.old.opened ≡ Excite }
        requires settled { self.old.queue ≡ [] }
        ensures { self.new ≡ opened_world Relax self.old.vector self.old }
    {
        replace_with(self, (), relaxed);
    }

    /// How many pulses are pending, which is at most the number of wires.
    pub fn pending_len(&self) -> u32
        ensures count { result ≡ length self.now.queue }
        ensures most { length self.now.queue ≤ number_of_wires self.now.net }
        ensures limit { number_of_wires self.now.net ≤ greatest_of Wires }
    {
        self.pending.len()
    }

    /// The wire of the pending pulse at a place of the queue, which is below their number. It is a wire of the netlist.
    pub fn pending_at(&self, place: u32) -> WireId
        requires { place < length self.now.queue }
        ensures wire { slice_get self.now.queue place ≡ Some result.number }
        ensures below { result.number < number_of_wires self.now.net }
    {
        self.pending.at(place)
    }
}

impl<'a> World<'a> {
    /// Delivers the pending pulse at a place of the queue, which is below their number, and answers its wire. The last
    /// wire of the queue moves into its place, and the wires on which the reader emits come last. It takes constant
    /// time.
    #[inline(always)]
    pub fn deliver_at(&mut self, place: u32) -> WireId
        requires { place < length self.old.queue }
        ensures { DeliversAt self.old self.new place result.number }
    {
        readers_of_wires();
        let wire = self.pending.take_at(place);
        let reader = self.net.reader(wire);
        match target_of(reader) {
            Target::Cell(id) => {
                let emitted = react_at(&mut self.cell_states, id, reader);
                append_emitted(emitted, &mut self.pending);
            }
            Target::Rail(id) => self.counted.count(id),
        }
        wire
    }

    /// Delivers the pending pulse of a wire, which may be any, and answers true. It answers false, and changes
    /// nothing, exactly where nothing is pending on the wire. It takes constant time.
    pub fn deliver(&mut self, wire: WireId) -> bool
        ensures delivered { result ≡ true → (place : ℕ) × DeliversAt self.old self.new place wire.number }
        ensures unchanged { result ≡ false → self.new ≡ self.old }
        ensures nothing { result ≡ false → occurrences wire.number self.old.queue ≡ 0 }
        ensures net { self.new.net ≡ self.old.net }
        ensures opened { self.new.opened ≡ self.old.opened }
    {
        match self.pending.place_of(wire) {
            Some(place) => {
                let _ = self.deliver_at(place);
                true
            }
            None => false,
        }
    }
}

impl<'a> World<'a> {
    /// Whether an output rail of the netlist got a pulse in this phase.
    pub fn pulsed(&self, rail: RailId) -> bool
        requires { rail.number < length self.now.net.output_rails }
        ensures { slice_get self.now.counted rail.number ≡ Some (if result then 1 else 0) }
    {
        readers_of_wires();
        self.counted.has_pulsed(rail)
    }

    /// The bit of a DROC of the netlist.
    pub fn stored(&self, cell: CellId) -> bool
        requires { cell.number < length self.now.net.cells }
        ensures { (cell_state : CellState) × (slice_get self.now.cell_states cell.number ≡ Some cell_state) × (result ≡ cell_state.bit) }
    {
        let (_, cell_state) = self.cell_states.at(cell);
        bit_of(cell_state)
    }

    /// Whether every LA and FA rests.
    pub fn at_rest(&self) -> bool
        ensures { (result ≡ true) ↔ IsAtRest (state_of self.now) }
    {
        do_rest(&self.cell_states)
    }
}

impl<'a> World<'a> {
    // The same as `begin_excite`, in place.
    #[inline(always)]
    fn open_excite(&mut self, inputs: &[bool])
        requires phase { phase_of self.old.opened ≡ Relax }
        requires settled { self.old.queue ≡ [] }
        requires width { length inputs.now ≡ self.old.net.inputs }
        ensures { self.new ≡ opened_world Excite inputs.now self.old }
    {
        readers_of_wires();
        self.vector.copy_from_slice(inputs);
        self.opened = Some(Phase::Excite);
        open_phase(
            Phase::Excite,
            inputs,
            self.net.net(),
            &mut self.cell_states,
            &mut self.pending,
            &mut self.counted,
        );
    }

    // The same as `begin_relax`, in place.
    #[inline(always)]
    fn open_relax(&mut self)
        requires phase { phase_of self.old.opened ≡ Excite }
        requires settled { self.old.queue ≡ [] }
        ensures { self.new ≡ opened_world Relax self.old.vector self.old }
    {
        readers_of_wires();
        self.opened = Some(Phase::Relax);
        open_phase(
            Phase::Relax,
            relax_vector(&self.vector),
            self.net.net(),
            &mut self.cell_states,
            &mut self.pending,
            &mut self.counted,
        );
    }
}

// A world whose next excite is opened with its vector. It is owned meanwhile, so that its parts need not be looked for
// at each cell.
fn excited<'a>(mut world: World<'a>, inputs: &[bool]) -> (World<'a>, ())
    requires phase { phase_of world.opened ≡ Relax }
    requires settled { world.queue ≡ [] }
    requires width { length inputs.now ≡ world.net.inputs }
    ensures { result.0 ≡ opened_world Excite inputs.now world.entry }
{
    world.open_excite(inputs);
    (world, ())
}

// A world whose relax is opened. It is owned meanwhile.
fn relaxed<'a>(mut world: World<'a>, _nothing: ()) -> (World<'a>, ())
    requires phase { phase_of world.opened ≡ Excite }
    requires settled { world.queue ≡ [] }
    ensures { result.0 ≡ opened_world Relax world.entry.vector world.entry }
{
    world.open_relax();
    (world, ())
}

// The vector of relax is the one of its cycle's excite.
fn relax_vector(vector: &Vec<bool>) -> &[bool]
    ensures { result.now ≡ vector.now.items }
{
    vector.as_slice()
}

fn bit_of(cell_state: CellState) -> bool
    ensures { result ≡ cell_state.bit }
{
    cell_state.bit
}

// Whether all cells rest.
fn do_rest(cell_states: &CellStates<'_>) -> bool
    ensures { (result ≡ true) ↔ ((cell_state : CellState) → IsIn cell_state cell_states.now.states → cell_state.held ≡ Rest) }
{
    for number in 0..cell_states.len() {
        let (_, cell_state) = cell_states.at(CellId::new(number));
        if !rests(cell_state) {
            return false;
        }
    }
    true
}

fn rests(cell_state: CellState) -> bool
    ensures { (result ≡ true) ↔ (cell_state.held ≡ Rest) }
{
    cell_state.held == Held::Rest
}
