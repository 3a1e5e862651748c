//! Whether each net of a machine has a value, and why not.

ghost use Rattle.std.specs.Prelude.{◌≡◌, ◌+◌, ◌++◌, ◌∷◌, [], IfOk, IfErr};
ghost use Rattle.source_machine.specs.Machines.{machine_of};
ghost use Rattle.source_machine.specs.Fitting.{Fits};
ghost use Rattle.source_machine.specs.Runs.{driven_nets};
ghost use Rattle.source_machine.specs.LowestNets.{IsFirst};
ghost use Rattle.source_machine.specs.Grounding.{IsWellFounded, IsDrivenTwice, IsUndriven, IsUngrounded};
ghost use Rattle.source_machine.specs.Dependencies.{dependencies_of};
ghost use Rattle.source_machine.specs.Refusals.{IsRefusedFor};
ghost use Rattle.dependency_order.specs.Orders.{IsOrder, IsOrderOf};

use crate::lowest_nets::{first_missing, first_twice, first_unknown};
use crate::machines::RawMachine;
use dependency_order::Order;
use pulse_ids::{Ident, NetId, NoMemory};
use std::alloc::Global;
use std::marker::Model;

/// Why a machine isn't well founded, or want of memory.
#[derive(Clone, Copy, Debug, PartialEq, Eq)]
pub enum Grounding {
    /// The net is driven more than once by inputs, latches and equations.
    DoubleDriver(NetId),
    /// The net is used, isn't net 0, and nothing drives it.
    Undriven(NetId),
    /// The net has an equation and isn't grounded.
    Cycle(NetId),
    /// Memory was refused.
    NoMemory,
}

impl From<NoMemory> for Grounding {
    ghost use Rattle.std.specs.Prelude.{◌≡◌};
    ghost use Rattle.source_machine.specs.declared.grounding.Grounding.TheVariants.{NoMemory};

    ghost from_gives = { λ error result. result ≡ NoMemory };

    fn from(_: NoMemory) -> Self {
        Grounding::NoMemory
    }
}

/// A machine in which every number is in range and every net has one value for each state and
/// input vector.
#[derive(Debug, Drop)]
pub struct Machine {
    raw: RawMachine,
    /// The numbers of the equations, each after those whose nets it reads.
    order: Vec<u32>,
}

impl Model for Machine {
    ghost use Rattle.source_machine.specs.Machines.{PlainMachine, machine_of};

    ghost Value = { PlainMachine };

    ghost view = { λ machine. machine_of machine.raw };

    ghost use Rattle.source_machine.specs.Fitting.{Fits};
    ghost use Rattle.source_machine.specs.Grounding.{IsWellFounded};
    ghost use Rattle.source_machine.specs.Dependencies.{dependencies_of};
    ghost use Rattle.dependency_order.specs.Orders.{IsOrder};

    ghost invariant = { λ machine. Fits (machine_of machine.raw) × IsWellFounded (machine_of machine.raw)
        × IsOrder (dependencies_of (machine_of machine.raw)) machine.order.items };
}

impl Machine {
    /// The machine as it was read.
    pub fn raw(&self) -> &RawMachine
        ensures raw { machine_of result.now ≡ self.now }
        ensures fits { Fits self.now }
        ensures founded { IsWellFounded self.now }
    {
        &self.raw
    }

    /// The numbers of the equations, each after those whose nets it reads.
    pub(crate) fn order(&self) -> &[u32]
        ensures { IsOrder (dependencies_of self.now) result.now }
    {
        self.order.as_slice()
    }
}

impl RawMachine {
    /// How many nets there are, with net 0.
    pub(crate) fn net_count(&self) -> usize
        ensures { result ≡ self.now.nets + 1 }
    {
        self.nets as usize + 1
    }

    /// The lowest net that is driven more than once.
    fn double_driver(&self, alloc: Global) -> Result<Option<u32>, NoMemory>
        requires { Fits (machine_of self.now) }
        ensures { IfOk result (λ found. IsFirst (IsDrivenTwice (machine_of self.now)) found) }
    {
        let driven = self.driven_nets(alloc)?;
        let found = first_twice(alloc, self.net_count(), driven.as_slice())?;
        Ok(found)
    }

    /// The nets that are driven, and net 0.
    fn driven_or_constant(&self, alloc: Global) -> Result<Vec<u32>, NoMemory>
        ensures { IfOk result (λ nets. nets.items ≡ driven_nets (machine_of self.now) ++ 0 ∷ []) }
    {
        let mut nets = self.driven_nets(alloc)?;
        nets.push(0)?;
        Ok(nets)
    }

    /// The lowest net other than net 0 that is used and that nothing drives.
    fn undriven(&self, alloc: Global) -> Result<Option<u32>, NoMemory>
        requires { Fits (machine_of self.now) }
        ensures { IfOk result (λ found. IsFirst (IsUndriven (machine_of self.now)) found) }
    {
        let driven = self.driven_or_constant(alloc)?;
        let used = self.used_nets(alloc)?;
        let found = first_missing(alloc, self.net_count(), used.as_slice(), driven.as_slice())?;
        Ok(found)
    }

    /// The lowest net of an equation that the order doesn't make known.
    fn ungrounded(&self, order: &Order) -> Option<u32>
        requires fits { Fits (machine_of self.now) }
        requires order { IsOrderOf (dependencies_of (machine_of self.now)) order.now }
        ensures { IsFirst (IsUngrounded (machine_of self.now)) result }
    {
        first_unknown(self.equations.as_slice(), order)
    }
}

/// The machine, unchanged, if each net has one value for each state and input vector. It takes
/// time and memory linear in the nets and literals, whatever the order of the equations.
///
/// The first of these refuses it, with its lowest net: a net that is driven more than once, a net
/// other than net 0 that is used and that nothing drives, and a net of an equation that isn't
/// grounded. Net 0, inputs and latch outputs are grounded, and so is an equation's net if all nets
/// of its cubes are. Want of memory may refuse any machine. The raw machine is then given up.
pub fn ground(alloc: Global, raw: RawMachine) -> Result<Machine, Grounding>
    requires { Fits (machine_of raw) }
    ensures accepted { IfOk result (λ machine. (machine ≡ machine_of raw) × IsWellFounded (machine_of raw)) }
    ensures refused { IfErr result (λ refusal. IsRefusedFor (machine_of raw) refusal) }
{
    if let Some(net) = raw.double_driver(alloc)? {
        return Err(Grounding::DoubleDriver(NetId::new(net)));
    }
    if let Some(net) = raw.undriven(alloc)? {
        return Err(Grounding::Undriven(NetId::new(net)));
    }
    let order = raw.evaluation_order(alloc)?;
    if let Some(net) = raw.ungrounded(&order) {
        return Err(Grounding::Cycle(NetId::new(net)));
    }
    let order = order.into_items();
    Ok(Machine { raw, order })
}
