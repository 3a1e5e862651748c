//! The order in which the equations of a machine are built.

ghost use Rattle.std.specs.Prelude.{◌≡◌, map, IfOk};
ghost use Rattle.source_machine.specs.Machines.{machine_of};
ghost use Rattle.source_machine.specs.Fitting.{Fits};
ghost use Rattle.source_machine.specs.Grounding.{IsWellFounded};
ghost use Rattle.graph_build.specs.Orders.{IsBuildOrder};

use dependency_order::lowest_order;
use pulse_ids::{Ident, NoMemory};
use source_machine::{Equation, RawMachine};
use std::alloc::Global;

/// The net of each equation.
fn equation_nets(alloc: Global, equations: &[Equation]) -> Result<Vec<u32>, NoMemory>
    ensures { IfOk result (λ nets. nets.items ≡ map (λ equation. equation.net.number) equations.now) }
{
    let mut nets = Vec::with_capacity(alloc, equations.len())?;
    for equation in equations {
        nets.push(equation.net.number())?;
    }
    Ok(nets)
}

/// The numbers of a machine's equations in the order in which they are built: of the equations
/// whose cubes' nets are all built, that of the lowest net is next. It takes memory linear in the
/// nets and literals, and time linear in them but for a logarithm at each equation. It fails only for
/// want of memory.
pub(crate) fn build_order(alloc: Global, machine: &RawMachine) -> Result<Vec<u32>, NoMemory>
    requires fits { Fits (machine_of machine.now) }
    requires founded { IsWellFounded (machine_of machine.now) }
    ensures { IfOk result (λ order. IsBuildOrder (machine_of machine.now) order.items) }
{
    let dependencies = machine.dependencies(alloc)?;
    let nets = equation_nets(alloc, machine.equations.as_slice())?;
    let order = lowest_order(alloc, &dependencies, nets)?;
    Ok(order.into_items())
}
