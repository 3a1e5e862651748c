//! The nets of a machine as lists of numbers.

ghost use Rattle.std.specs.Prelude.{◌≡◌, ◌++◌, map, IfOk, OnOk};
ghost use Rattle.std.specs.List.{flat_map};
ghost use Rattle.source_machine.specs.Machines.{equation_of, machine_of};
ghost use Rattle.source_machine.specs.Runs.{driven_nets};
ghost use Rattle.source_machine.specs.Grounding.{cube_nets, used_nets};
ghost use Rattle.source_machine.specs.Dependencies.{start_nets};

use crate::covers::Cover;
use crate::machines::{Equation, Latch, RawMachine};
use pulse_ids::{Ident, Lit, NetId, NoMemory};
use std::alloc::Global;

fn push_inputs(nets: &mut Vec<u32>, inputs: &[NetId]) -> Result<(), NoMemory>
    ensures { OnOk result (nets.new.items ≡ nets.old.items ++ map (λ net. net.number) inputs.now) }
{
    for net in inputs {
        nets.push(net.number())?;
    }
    Ok(())
}

fn push_outs(nets: &mut Vec<u32>, latches: &[Latch]) -> Result<(), NoMemory>
    ensures { OnOk result (nets.new.items ≡ nets.old.items ++ map (λ latch. latch.out.number) latches.now) }
{
    for latch in latches {
        nets.push(latch.out.number())?;
    }
    Ok(())
}

fn push_nexts(nets: &mut Vec<u32>, latches: &[Latch]) -> Result<(), NoMemory>
    ensures { OnOk result (nets.new.items ≡ nets.old.items ++ map (λ latch. latch.next.id.number) latches.now) }
{
    for latch in latches {
        nets.push(latch.next.net().number())?;
    }
    Ok(())
}

fn push_literals(nets: &mut Vec<u32>, literals: &[Lit]) -> Result<(), NoMemory>
    ensures { OnOk result (nets.new.items ≡ nets.old.items ++ map (λ literal. literal.id.number) literals.now) }
{
    for literal in literals {
        nets.push(literal.net().number())?;
    }
    Ok(())
}

fn push_equations(nets: &mut Vec<u32>, equations: &[Equation]) -> Result<(), NoMemory>
    ensures { OnOk result (nets.new.items ≡ nets.old.items ++ map (λ equation. equation.net.number) equations.now) }
{
    for equation in equations {
        nets.push(equation.net.number())?;
    }
    Ok(())
}

fn push_cubes(nets: &mut Vec<u32>, cubes: &[Cover]) -> Result<(), NoMemory>
    ensures { OnOk result (nets.new.items ≡ nets.old.items
        ++ flat_map (λ cube. map (λ literal. literal.id.number) cube) cubes.now) }
{
    for cube in cubes {
        push_literals(nets, cube.literals())?;
    }
    Ok(())
}

fn push_all_cubes(nets: &mut Vec<u32>, equations: &[Equation]) -> Result<(), NoMemory>
    ensures { OnOk result (nets.new.items ≡ nets.old.items
        ++ flat_map (λ equation. cube_nets (equation_of equation)) equations.now) }
{
    for equation in equations {
        equation.push_cube_nets(nets)?;
    }
    Ok(())
}

impl Equation {
    /// Adds the nets of all cube literals, cube by cube.
    pub(crate) fn push_cube_nets(&self, nets: &mut Vec<u32>) -> Result<(), NoMemory>
        ensures { OnOk result (nets.new.items ≡ nets.old.items ++ cube_nets (equation_of self.now)) }
    {
        push_cubes(nets, self.rows.as_slice())
    }
}

impl RawMachine {
    /// The nets that inputs, latches and equations drive, each as often as it is driven.
    pub(crate) fn driven_nets(&self, alloc: Global) -> Result<Vec<u32>, NoMemory>
        ensures { IfOk result (λ nets. nets.items ≡ driven_nets (machine_of self.now)) }
    {
        let mut nets = Vec::new(alloc);
        push_inputs(&mut nets, self.inputs.as_slice())?;
        push_outs(&mut nets, self.latches.as_slice())?;
        push_equations(&mut nets, self.equations.as_slice())?;
        Ok(nets)
    }

    /// Net 0, the inputs and the latch outputs.
    pub(crate) fn start_nets(&self, alloc: Global) -> Result<Vec<u32>, NoMemory>
        ensures { IfOk result (λ nets. nets.items ≡ start_nets (machine_of self.now)) }
    {
        let mut nets = Vec::new(alloc);
        nets.push(0)?;
        push_inputs(&mut nets, self.inputs.as_slice())?;
        push_outs(&mut nets, self.latches.as_slice())?;
        Ok(nets)
    }

    /// The nets of all cube literals, next literals and output literals.
    pub(crate) fn used_nets(&self, alloc: Global) -> Result<Vec<u32>, NoMemory>
        ensures { IfOk result (λ nets. nets.items ≡ used_nets (machine_of self.now)) }
    {
        let mut nets = Vec::new(alloc);
        push_all_cubes(&mut nets, self.equations.as_slice())?;
        push_nexts(&mut nets, self.latches.as_slice())?;
        push_literals(&mut nets, self.outputs.as_slice())?;
        Ok(nets)
    }
}
