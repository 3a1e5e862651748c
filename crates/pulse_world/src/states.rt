//! What the cells keep between pulses, in two bits a cell.

ghost use Rattle.std.specs.Prelude.{◌≡◌, ◌<◌, ◌^◌, Some, map, length, IfOk, slice_get, slice_set, if◌then◌else◌};
ghost use Rattle.cell_netlist.specs.declared.kinds.CellState.{CellState};
ghost use Rattle.cell_netlist.specs.declared.lines.Cell.{Cell};
ghost use Rattle.cell_netlist.specs.World.{cleared, preloaded};
ghost use Rattle.pulse_world.specs.PackedStates.{held_by, state_by, bit_place, other_port, nothing_kept, AreStatesOf, IsDrocAt, IsFreeAt, HasPulsed, drocs_from};

use crate::drocs::drocs_of;
use cell_netlist::{Cell, CellState, Held, Port};
use pulse_ids::{Bits, CellId, Id, Ident, NoMemory, Row};
use std::alloc::Global;
use std::marker::Model;

/// The kind of the bits in which the states stand.
#[derive(Clone, Copy, Debug, PartialEq, Eq)]
struct StateBit;

/// The state of each cell of a row, in two bits that stand side by side. An LA or FA at rest has 00, one that holds a
/// pulse of port a has 10, one that holds a pulse of port b has 01, and 11 never stands. A DROC's bit is the first
/// one. After `new` no call takes memory.
#[derive(Debug, Drop)]
pub(crate) struct CellStates<'a> {
    cells: &'a [Cell],
    // The DROCs, by rising numbers.
    drocs: Vec<CellId>,
    bits: Bits<Id<StateBit>>,
}

impl<'a> Model for CellStates<'a> {
    ghost use Rattle.std.specs.Prelude.{◌≡◌};
    ghost use Rattle.pulse_world.specs.PackedStates.{PlainStates, packed_states, ArePacked, drocs_from, numbers_in};

    ghost Value = { PlainStates };

    ghost view = { λ kept. packed_states kept.cells.now kept.bits };

    ghost invariant = { λ kept. ArePacked kept.cells.now kept.bits × (numbers_in kept.drocs.items ≡ drocs_from 0 kept.cells.now) };
}

impl<'a> CellStates<'a> {
    /// What each cell of fewer than 2^31 keeps at the start: an LA or FA rests, and a DROC holds its preload.
    pub(crate) fn new(
        alloc: Global,
        cells: &'a Row<CellId, Cell>,
    ) -> Result<CellStates<'a>, NoMemory>
        requires { length cells.now < 2 ^ 31 }
        ensures { IfOk result (λ kept. kept ≡ record { cells = cells.now; states = map preloaded cells.now }) }
    {
        let mut kept = CellStates::empty(alloc, cells)?;
        preload_all(&mut kept);
        Ok(kept)
    }

    // Cells that keep nothing.
    fn empty(alloc: Global, cells: &'a Row<CellId, Cell>) -> Result<CellStates<'a>, NoMemory>
        requires { length cells.now < 2 ^ 31 }
        ensures { IfOk result (λ kept. kept ≡ record { cells = cells.now; states = map nothing_kept cells.now }) }
    {
        let drocs = drocs_of(alloc, cells)?;
        let bits = Bits::filled(alloc, 2 * cells.len())?;
        Ok(CellStates {
            cells: cells.items(),
            drocs,
            bits,
        })
    }

    /// How many cells there are.
    pub(crate) fn len(&self) -> u32
        ensures cells { result ≡ length self.now.cells }
        ensures states { result ≡ length self.now.states }
    {
        self.cells.len() as u32
    }

    /// How many cells are DROCs.
    #[inline(always)]
    pub(crate) fn drocs(&self) -> usize
        ensures count { result ≡ length (drocs_from 0 self.now.cells) }
        ensures fit { AreStatesOf self.now }
    {
        self.drocs.len()
    }

    /// The number of a DROC, by its place among the DROCs.
    #[inline(always)]
    pub(crate) fn droc(&self, place: usize) -> CellId
        requires { place < length (drocs_from 0 self.now.cells) }
        ensures { slice_get (drocs_from 0 self.now.cells) place ≡ Some result.number }
    {
        self.drocs[place]
    }

    /// The cell with this number, which is below the length, and what it keeps.
    pub(crate) fn at(&self, id: CellId) -> (Cell, CellState)
        requires { id.number < length self.now.cells }
        ensures cell { slice_get self.now.cells id.number ≡ Some result.0 }
        ensures state { slice_get self.now.states id.number ≡ Some result.1 }
    {
        let cell = self.cell(id);
        let first = self.bits.get(bit_of(id, Port::A));
        let second = self.bits.get(bit_of(id, Port::B));
        (cell, unpacked(cell, first, second))
    }

    /// The cell with this number, which is below the length.
    #[inline(always)]
    pub(crate) fn cell(&self, id: CellId) -> Cell
        requires { id.number < length self.now.cells }
        ensures { slice_get self.now.cells id.number ≡ Some result }
    {
        self.cells[id.number() as usize]
    }
}

impl<'a> CellStates<'a> {
    /// The bit of the cell with this number, which is a DROC. It is 0 then, and all other cells keep theirs.
    #[inline(always)]
    pub(crate) fn take_bit(&mut self, id: CellId) -> bool
        requires { IsDrocAt self.old id.number }
        ensures { (before : CellState) × (slice_get self.old.states id.number ≡ Some before) × (result ≡ before.bit)
            × (self.new ≡ record self.old { states = slice_set self.old.states id.number (cleared before) }) }
    {
        let bit = self.bits.get(bit_of(id, Port::A));
        if bit {
            self.bits.set(bit_of(id, Port::A), false);
        }
        bit
    }

    /// Sets the bit of the cell with this number, which is a DROC. All other cells keep theirs.
    #[inline(always)]
    pub(crate) fn set_bit(&mut self, id: CellId, bit: bool)
        requires { IsDrocAt self.old id.number }
        ensures { (before : CellState) × (slice_get self.old.states id.number ≡ Some before)
            × (self.new ≡ record self.old { states = slice_set self.old.states id.number (record before { bit = bit }) }) }
    {
        self.bits.set(bit_of(id, Port::A), bit);
    }

    /// Takes in a pulse on a port of the cell with this number, which is an LA or FA that holds none of this port. It
    /// answers whether the cell held one of the other port: it rests then, and else it holds this one.
    #[inline(always)]
    pub(crate) fn pulse(&mut self, id: CellId, port: Port) -> bool
        requires { IsFreeAt self.old id.number port }
        ensures { HasPulsed self.old self.new id.number port result }
    {
        let met = self.bits.get(bit_of(id, other(port)));
        if met {
            self.bits.set(bit_of(id, other(port)), false);
        } else {
            self.bits.set(bit_of(id, port), true);
        }
        met
    }
}

// The bit of a cell for a port, or a DROC's for port a.
#[inline(always)]
fn bit_of(id: CellId, port: Port) -> Id<StateBit>
    requires { id.number < 2 ^ 31 }
    ensures { result.number ≡ bit_place id.number port }
{
    let first = 2 * id.number();
    match port {
        Port::A => Id::new(first),
        Port::B => Id::new(first + 1),
    }
}

// The other port of a gate.
#[inline(always)]
fn other(port: Port) -> Port
    ensures { result ≡ other_port port }
{
    match port {
        Port::A => Port::B,
        Port::B => Port::A,
    }
}

// Lets each cell, of which none keeps anything yet, keep what it does at the start.
fn preload_all(kept: &mut CellStates<'_>)
    requires { kept.old.states ≡ map nothing_kept kept.old.cells }
    ensures { kept.new ≡ record kept.old { states = map preloaded kept.old.cells } }
{
    for number in 0..kept.len() {
        preload_at(kept, CellId::new(number));
    }
}

// Lets a cell that keeps nothing keep what it does at the start.
fn preload_at(kept: &mut CellStates<'_>, id: CellId)
    requires { (cell : Cell) × (slice_get kept.old.cells id.number ≡ Some cell) × (slice_get kept.old.states id.number ≡ Some (nothing_kept cell)) }
    ensures { (cell : Cell) × (slice_get kept.old.cells id.number ≡ Some cell)
        × (kept.new ≡ record kept.old { states = slice_set kept.old.states id.number (preloaded cell) }) }
{
    if preload(kept.cell(id)) {
        kept.set_bit(id, true);
    }
}

// The bit of a cell at the start.
fn preload(cell: Cell) -> bool
    ensures { result ≡ (preloaded cell).bit }
{
    match cell {
        Cell::Droc { preload, .. } => preload,
        _ => false,
    }
}

// What a cell keeps by its two bits.
fn unpacked(cell: Cell, first: bool, second: bool) -> CellState
    ensures { result ≡ state_by cell first second }
{
    match cell {
        Cell::La { .. } | Cell::Fa { .. } => CellState {
            held: gate_holds(first, second),
            bit: false,
        },
        Cell::Split { .. } => CellState {
            held: Held::Rest,
            bit: false,
        },
        Cell::Droc { .. } => CellState {
            held: Held::Rest,
            bit: first,
        },
    }
}

// What an LA or FA holds by its two bits.
fn gate_holds(first: bool, second: bool) -> Held
    ensures { result ≡ held_by first second }
{
    match (first, second) {
        (false, false) => Held::Rest,
        (true, _) => Held::HasA,
        (false, true) => Held::HasB,
    }
}
