//! What the equations of a machine wait for, and the order in which they get values.

ghost use Rattle.std.specs.Prelude.{◌≡◌, IfOk, OnOk};
ghost use Rattle.source_machine.specs.Machines.{machine_of};
ghost use Rattle.source_machine.specs.Fitting.{Fits};
ghost use Rattle.source_machine.specs.Grounding.{IsNever, IsDrivenTwice};
ghost use Rattle.source_machine.specs.Dependencies.{dependencies_of};
ghost use Rattle.dependency_order.specs.Dependencies.{first_items};
ghost use Rattle.dependency_order.specs.Orders.{IsOrderOf};

use crate::machines::RawMachine;
use dependency_order::{Dependencies, Order, Totals, arrival_order};
use pulse_ids::{Ident, NoMemory};
use std::alloc::Global;

impl RawMachine {
    /// What the equations wait for, by their places: an equation needs the nets of its cubes and yields its
    /// net, and net 0, the inputs and the latch outputs are known at the start. No net is driven twice. It
    /// takes time and memory linear in the nets and literals, and fails only for want of memory.
    pub fn dependencies(&self, alloc: Global) -> Result<Dependencies, NoMemory>
        requires fits { Fits (machine_of self.now) }
        requires once { IsNever (IsDrivenTwice (machine_of self.now)) }
        ensures { IfOk result (λ dependencies. dependencies ≡ dependencies_of (machine_of self.now)) }
    {
        let starts = self.start_nets(alloc)?;
        let totals = Totals {
            starts: starts.len(),
            items: self.equations.len(),
            needs: self.size() as usize,
            yields: self.equations.len(),
        };
        let mut dependencies = Dependencies::with_capacity(alloc, self.net_count(), totals)?;
        dependencies.start(starts.as_slice())?;
        self.add_equations(alloc, &mut dependencies)?;
        Ok(dependencies)
    }

    /// Adds the equations to dependencies that have none.
    fn add_equations(&self, alloc: Global, dependencies: &mut Dependencies) -> Result<(), NoMemory>
        requires fits { Fits (machine_of self.now) }
        requires once { IsNever (IsDrivenTwice (machine_of self.now)) }
        requires begun { dependencies.old ≡ first_items (dependencies_of (machine_of self.now)) 0 }
        ensures { OnOk result (dependencies.new ≡ dependencies_of (machine_of self.now)) }
    {
        let mut nets = Vec::new(alloc);
        for equation in &self.equations {
            nets.clear();
            equation.push_cube_nets(&mut nets)?;
            dependencies.push(nets.as_slice(), &[equation.net.number()])?;
        }
        Ok(())
    }

    /// The order in which the equations get values.
    pub(crate) fn evaluation_order(&self, alloc: Global) -> Result<Order, NoMemory>
        requires fits { Fits (machine_of self.now) }
        requires once { IsNever (IsDrivenTwice (machine_of self.now)) }
        ensures { IfOk result (λ order. IsOrderOf (dependencies_of (machine_of self.now)) order) }
    {
        let dependencies = self.dependencies(alloc)?;
        let order = arrival_order(alloc, &dependencies)?;
        Ok(order)
    }
}
