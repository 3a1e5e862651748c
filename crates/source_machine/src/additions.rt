//! Machines that are built line by line.

ghost use Rattle.std.specs.Prelude.{◌≡◌, ◌<◌, ◌++◌, ◌∷◌, [], length, map, OnOk, OnErr};
ghost use Rattle.source_machine.specs.Machines.{literal_of, latch_of, equation_of, machine_of};
ghost use Rattle.source_machine.specs.Additions.{bare_equation, with_cube, bare, with_input, with_latch, with_equation, with_output, with_input_name, with_output_name};

use crate::covers::Cover;
use crate::machines::{Equation, Latch, RawMachine};
use pulse_ids::{Lit, Name, NetId, NoMemory};
use std::alloc::Global;

/// Adds a port with its name at the end of both lists, or leaves them as they are.
fn add_port<T: Drop>(
    ports: &mut Vec<T>,
    names: &mut Vec<Option<Name>>,
    port: T,
    name: Option<Name>,
) -> Result<(), NoMemory>
    ensures ports { OnOk result (ports.new.items ≡ ports.old.items ++ port ∷ []) }
    ensures names { OnOk result (names.new.items ≡ names.old.items ++ name ∷ []) }
    ensures ports_kept { OnErr result (ports.new.items ≡ ports.old.items) }
    ensures names_kept { OnErr result (names.new.items ≡ names.old.items) }
{
    ports.reserve(1)?;
    names.reserve(1)?;
    ports.push_reserved(port);
    names.push_reserved(name);
    Ok(())
}

impl Equation {
    /// An equation of a net without rows: its value is the opposite of `on`. It takes no memory.
    pub fn bare(alloc: Global, net: NetId, on: bool) -> Equation
        ensures { equation_of result ≡ bare_equation net.number on }
    {
        Equation {
            net,
            on,
            rows: Vec::new(alloc),
        }
    }

    /// Adds a cube at the end. Where memory is refused the equation is unchanged.
    pub fn add_row(&mut self, row: Cover) -> Result<(), NoMemory>
        ensures added { OnOk result (equation_of self.new ≡ with_cube (equation_of self.old) (map literal_of row)) }
        ensures kept { OnErr result (equation_of self.new ≡ equation_of self.old) }
    {
        self.rows.push(row)?;
        Ok(())
    }
}

impl RawMachine {
    /// A machine of so many nets, without ports, latches and equations. It takes no memory.
    pub fn bare(alloc: Global, nets: u32) -> RawMachine
        ensures { machine_of result ≡ bare nets }
    {
        RawMachine {
            nets,
            inputs: Vec::new(alloc),
            latches: Vec::new(alloc),
            equations: Vec::new(alloc),
            outputs: Vec::new(alloc),
            input_names: Vec::new(alloc),
            output_names: Vec::new(alloc),
        }
    }

    /// Adds an input port that drives a net, with its name, if it has one. Where
    /// memory is refused the machine is unchanged.
    pub fn add_input(&mut self, net: NetId, name: Option<Name>) -> Result<(), NoMemory>
        ensures added { OnOk result (machine_of self.new ≡ with_input (machine_of self.old) net.number name) }
        ensures kept { OnErr result (machine_of self.new ≡ machine_of self.old) }
    {
        add_port(&mut self.inputs, &mut self.input_names, net, name)
    }

    /// Adds an output port that shows a literal, with its name, if it has one. Where
    /// memory is refused the machine is unchanged.
    pub fn add_output(&mut self, literal: Lit, name: Option<Name>) -> Result<(), NoMemory>
        ensures added { OnOk result (machine_of self.new ≡ with_output (machine_of self.old) (literal_of literal) name) }
        ensures kept { OnErr result (machine_of self.new ≡ machine_of self.old) }
    {
        add_port(&mut self.outputs, &mut self.output_names, literal, name)
    }

    /// Adds a latch. Where memory is refused the machine is unchanged.
    pub fn add_latch(&mut self, latch: Latch) -> Result<(), NoMemory>
        ensures added { OnOk result (machine_of self.new ≡ with_latch (machine_of self.old) (latch_of latch)) }
        ensures kept { OnErr result (machine_of self.new ≡ machine_of self.old) }
    {
        self.latches.push(latch)?;
        Ok(())
    }

    /// Adds an equation. Where memory is refused the machine is unchanged.
    pub fn add_equation(&mut self, equation: Equation) -> Result<(), NoMemory>
        ensures added { OnOk result (machine_of self.new ≡ with_equation (machine_of self.old) (equation_of equation)) }
        ensures kept { OnErr result (machine_of self.new ≡ machine_of self.old) }
    {
        self.equations.push(equation)?;
        Ok(())
    }

    /// Gives an input port, by its place, a name.
    pub fn name_input(&mut self, port: u32, name: Name)
        requires { port < length self.old.input_names.items }
        ensures { machine_of self.new ≡ with_input_name (machine_of self.old) port name }
    {
        self.input_names[port as usize] = Some(name);
    }

    /// Gives an output port, by its place, a name.
    pub fn name_output(&mut self, port: u32, name: Name)
        requires { port < length self.old.output_names.items }
        ensures { machine_of self.new ≡ with_output_name (machine_of self.old) port name }
    {
        self.output_names[port as usize] = Some(name);
    }
}
