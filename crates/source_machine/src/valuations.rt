//! The bits of all nets of a machine in one cycle.

ghost use Rattle.std.specs.Prelude.{◌≡◌, ◌<◌, ◌+◌, ℕ, [], List, Bool, map, length, replicate, false, not, if◌then◌else◌, IfOk};
ghost use Rattle.source_machine.specs.Machines.{literal_of, equation_of, machine_of};
ghost use Rattle.pulse_ids.specs.Lists.{IsIn, bit_at};
ghost use Rattle.std.specs.List.{list_any, list_all};
ghost use Rattle.source_machine.specs.Fitting.{Fits};
ghost use Rattle.source_machine.specs.Runs.{literal_value, equation_value, Agrees, next_state};
ghost use Rattle.source_machine.specs.Dependencies.{dependencies_of};
ghost use Rattle.dependency_order.specs.Orders.{IsOrder};
ghost use Rattle.source_machine.specs.Evaluating.{IsGiven, IsEvaluated};

use crate::covers::Cover;
use crate::grounding::Machine;
use crate::lowest_nets::clear_bits;
use crate::machines::{Equation, Latch, RawMachine};
use pulse_ids::{Ident, Lit, NetId, NoMemory};
use std::alloc::Global;
use std::marker::Model;

/// The bits of the nets 0 to `nets` of a machine, of which net 0 is the constant 0.
#[derive(Debug, Drop)]
pub struct Values {
    bits: Vec<bool>,
}

impl Model for Values {
    ghost Value = { List Bool };

    ghost view = { λ values. values.bits.items };
}

impl Values {
    /// The room for the bits of a machine's nets, all 0. It takes all memory that steps need: a byte
    /// a net.
    pub fn new(alloc: Global, machine: &Machine) -> Result<Values, NoMemory>
        ensures { IfOk result (λ values. values ≡ replicate (machine.now.nets + 1) false) }
    {
        let bits = clear_bits(alloc, machine.raw().net_count())?;
        Ok(Values { bits })
    }

    /// The value of a literal, whose net is one of the machine's.
    pub fn value(&self, lit: Lit) -> bool
        requires { lit.id.number < length self.now }
        ensures { result ≡ literal_value (bit_at self.now) (literal_of lit) }
    {
        literal_bit(&self.bits, lit)
    }
}

/// The value of a literal. A net past the last one has 0.
fn literal_bit(bits: &[bool], literal: Lit) -> bool
    ensures { result ≡ literal_value (bit_at bits.now) (literal_of literal) }
{
    let bit = match bits.get(literal.net().number() as usize) {
        Some(bit) => *bit,
        None => false,
    };
    if literal.negated() { !bit } else { bit }
}

/// Whether all literals of a cube are 1.
fn cube_bit(bits: &[bool], cube: &Cover) -> bool
    ensures { result ≡ list_all (λ literal. literal_value (bit_at bits.now) (literal_of literal)) cube.now }
{
    cube.literals()
        .iter()
        .all(|literal| literal_bit(bits, *literal))
}

/// Whether some cube has all its literals 1.
fn is_met(bits: &[bool], cubes: &[Cover]) -> bool
    ensures { result
        ≡ list_any (λ cube. list_all (λ literal. literal_value (bit_at bits.now) (literal_of literal)) cube) cubes.now }
{
    cubes.iter().any(|cube| cube_bit(bits, cube))
}

/// `on` where some cube is met, and the opposite elsewhere.
fn value_if(met: bool, on: bool) -> bool
    ensures { result ≡ if met then on else not on }
{
    if met { on } else { !on }
}

impl Equation {
    /// The value of the equation's net.
    fn bit(&self, bits: &[bool]) -> bool
        ensures { result ≡ equation_value (bit_at bits.now) (equation_of self.now) }
    {
        value_if(is_met(bits, self.rows.as_slice()), self.on)
    }
}

/// Gives each input net the bit of the vector at its place.
fn give_inputs(bits: &mut [bool], nets: &[NetId], vector: &[bool])
    requires fit { (net : ℕ) → IsIn net (map (λ net. net.number) nets.now) → net < length bits.old }
    requires wide { length vector.now ≡ length nets.now }
    ensures { IsGiven bits.old (map (λ net. net.number) nets.now) vector.now bits.new }
{
    for place in 0..nets.len() {
        bits[nets[place].number() as usize] = vector[place];
    }
}

/// Gives the net of each latch the bit of the state at its place.
fn give_state(bits: &mut [bool], latches: &[Latch], state: &[bool])
    requires fit { (net : ℕ) → IsIn net (map (λ latch. latch.out.number) latches.now) → net < length bits.old }
    requires wide { length state.now ≡ length latches.now }
    ensures { IsGiven bits.old (map (λ latch. latch.out.number) latches.now) state.now bits.new }
{
    for place in 0..latches.len() {
        bits[latches[place].out.number() as usize] = state[place];
    }
}

/// Gives each bit of the state its next value.
fn advance(state: &mut [bool], latches: &[Latch], bits: &[bool])
    requires { length state.old ≡ length latches.now }
    ensures { state.new
        ≡ map (λ latch. literal_value (bit_at bits.now) (literal_of latch.next)) latches.now }
{
    for place in 0..latches.len() {
        state[place] = literal_bit(bits, latches[place].next);
    }
}

impl RawMachine {
    /// The bits of inputs and latches, and 0 for all other nets.
    fn begin(&self, bits: &mut [bool], state: &[bool], vector: &[bool])
        requires fits { Fits (machine_of self.now) }
        requires room { length bits.old ≡ self.now.nets + 1 }
        requires state { length state.now ≡ length self.now.latches.items }
        requires vector { length vector.now ≡ length self.now.inputs.items }
        ensures { IsEvaluated (machine_of self.now) state.now vector.now [] bits.new }
    {
        bits.fill(false);
        give_inputs(bits, self.inputs.as_slice(), vector);
        give_state(bits, self.latches.as_slice(), state);
    }

    /// Gives each equation's net its value, in an order in which the nets of its cubes have theirs.
    fn evaluate(&self, bits: &mut [bool], order: &[u32])
        requires fits { Fits (machine_of self.now) }
        requires room { length bits.old ≡ self.now.nets + 1 }
        requires order { IsOrder (dependencies_of (machine_of self.now)) order.now }
        ensures width { length bits.new ≡ length bits.old }
        ensures evaluated { (state vector : List Bool)
            → IsEvaluated (machine_of self.now) state vector [] bits.old
            → IsEvaluated (machine_of self.now) state vector order.now bits.new }
    {
        for number in order {
            let equation = &self.equations[*number as usize];
            let bit = equation.bit(bits);
            bits[equation.net.number() as usize] = bit;
        }
    }
}

/// One cycle of a machine: from a bit for each latch and a bit for each input, the bits of all
/// nets, and the next bit of each latch in the latch's place. The bits of the nets are the only
/// ones that agree with the machine. The room has a bit for each net, as `Values::new` gives it,
/// and what it held before doesn't matter. It takes no memory and can't be refused, and goes once
/// over the nets and at most once over the literals.
pub fn step(machine: &Machine, state: &mut [bool], inputs: &[bool], room: &mut Values)
    requires state { length state.old ≡ length machine.now.latches }
    requires inputs { length inputs.now ≡ length machine.now.inputs }
    requires room { length room.old ≡ machine.now.nets + 1 }
    ensures agrees { Agrees machine.now state.old inputs.now room.new }
    ensures only { (valuation : List Bool)
        → Agrees machine.now state.old inputs.now valuation
        → valuation ≡ room.new }
    ensures next { state.new ≡ next_state machine.now room.new }
{
    let raw = machine.raw();
    let bits = room.bits.as_mut_slice();
    raw.begin(bits, state, inputs);
    raw.evaluate(bits, machine.order());
    advance(state, raw.latches.as_slice(), bits);
}
