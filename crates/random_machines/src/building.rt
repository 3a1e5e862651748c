//! Random machines, and the netlist of a machine.

ghost use Rattle.std.specs.Prelude.{◌<◌, ◌≤◌};

use anyhow::{Context, Result, bail};
use cell_netlist::{Ask, SoundNet, Version};
use graph_build::build;
use pulse_ids::{Ident, Lit, NetId, NoMemory};
use rail_checker::check;
use rail_demand::demand;
use rail_mapper::map;
use source_machine::{Cover, Equation, Latch, Machine, RawMachine, ground};
use std::alloc::Global;

/// Draws numbers by a linear congruence.
#[derive(Drop)]
pub(crate) struct Draw {
    pub(crate) state: u32,
}

impl Draw {
    /// A number below a bound.
    pub(crate) fn below(&mut self, bound: u16) -> u16
        requires { 0 < bound }
        ensures { result < bound }
    {
        self.state = self
            .state
            .wrapping_mul(1_664_525)
            .wrapping_add(1_013_904_223);
        (self.state / 65_536 % bound as u32) as u16
    }

    pub(crate) fn bit(&mut self) -> bool {
        self.below(2) == 1
    }

    /// A literal of a net below a bound. Net 0 is among them.
    fn literal(&mut self, nets: u16) -> Lit
        requires { 0 < nets }
    {
        let net = self.below(nets);
        Lit::new(NetId::new(net as u32), self.bit())
    }
}

/// A net as a conjunction of two literals of lower nets, or the complement of one.
fn conjunction(alloc: Global, draw: &mut Draw, net: u16) -> Result<Equation, NoMemory>
    requires { 0 < net }
{
    let mut cube = Cover::new(alloc);
    cube.push(draw.literal(net))?;
    cube.push(draw.literal(net))?;
    let mut equation = Equation::bare(alloc, NetId::new(net as u32), draw.bit());
    equation.add_row(cube)?;
    Ok(equation)
}

/// Three inputs, three latches, so many conjunctions and four outputs, all drawn.
pub(crate) fn random_machine(
    alloc: Global,
    draw: &mut Draw,
    conjunctions: u16,
) -> Result<RawMachine, NoMemory>
    requires { conjunctions ≤ 40 }
{
    let end = 7 + conjunctions;
    let mut raw = RawMachine::bare(alloc, 6 + conjunctions as u32);
    for net in 1..4u32 {
        raw.add_input(NetId::new(net), None)?;
    }
    for net in 4..7u32 {
        let init = draw.bit();
        let next = draw.literal(end);
        let out = NetId::new(net);
        raw.add_latch(Latch { out, init, next })?;
    }
    for net in 7..end {
        raw.add_equation(conjunction(alloc, draw, net)?)?;
    }
    for _port in 0..4 {
        raw.add_output(draw.literal(end), None)?;
    }
    Ok(raw)
}

/// The machine, which fits and is well founded.
pub(crate) fn grounded(alloc: Global, raw: RawMachine) -> Result<Machine> {
    if !raw.fits() {
        bail!("a number of the machine is out of range");
    }
    ground(alloc, raw)
        .ok()
        .context("the machine is not well founded")
}

/// The netlist of a machine in version two with the rails of an ask, as the checker finds it sound.
pub(crate) fn netlist_of(alloc: Global, machine: &Machine, ask: Ask) -> Result<SoundNet> {
    let built = build(alloc, machine)?;
    let needed = demand(alloc, &built, ask)?;
    let net = map(alloc, machine, &built, &needed, ask, Version::Two)?;
    check(alloc, net.into_net())
        .ok()
        .context("the netlist is unsound")
}
