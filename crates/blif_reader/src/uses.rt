//! Where a net stands in a machine.

ghost use Rattle.std.specs.Prelude.{◌≡◌, ◌==◌, ◌||◌};
ghost use Rattle.std.specs.List.{list_any};
ghost use Rattle.source_machine.specs.Machines.{machine_of};
ghost use Rattle.blif_reader.specs.Sources.{is_read, is_made, is_input};

use pulse_ids::{Ident, Lit, NetId};
use source_machine::{Cover, Equation, Latch, RawMachine};

fn literals_have(net: u32, literals: &[Lit]) -> bool
    ensures { result ≡ list_any (λ literal. literal.id.number == net) literals.now }
{
    literals.iter().any(|literal| literal.net().number() == net)
}

fn rows_have(net: u32, rows: &[Cover]) -> bool
    ensures { result ≡ list_any (λ row. list_any (λ literal. literal.id.number == net) row) rows.now }
{
    rows.iter().any(|row| literals_have(net, row.literals()))
}

fn equations_have(net: u32, equations: &[Equation]) -> bool
    ensures { result ≡ list_any (λ equation. list_any (λ row. list_any (λ literal. literal.id.number == net) row) equation.rows.items) equations.now }
{
    equations
        .iter()
        .any(|equation| rows_have(net, equation.rows.as_slice()))
}

fn latches_have(net: u32, latches: &[Latch]) -> bool
    ensures { result ≡ list_any (λ latch. latch.next.id.number == net) latches.now }
{
    latches.iter().any(|latch| latch.next.net().number() == net)
}

fn equations_drive(net: u32, equations: &[Equation]) -> bool
    ensures { result ≡ list_any (λ equation. equation.net.number == net) equations.now }
{
    equations
        .iter()
        .any(|equation| equation.net.number() == net)
}

fn latches_drive(net: u32, latches: &[Latch]) -> bool
    ensures { result ≡ list_any (λ latch. latch.out.number == net) latches.now }
{
    latches.iter().any(|latch| latch.out.number() == net)
}

fn nets_have(net: u32, nets: &[NetId]) -> bool
    ensures { result ≡ list_any (λ input. input.number == net) nets.now }
{
    nets.iter().any(|input| input.number() == net)
}

fn stands_in(net: u32, equations: &[Equation], latches: &[Latch], outputs: &[Lit]) -> bool
    ensures { result ≡ (list_any (λ equation. list_any (λ row. list_any (λ literal. literal.id.number == net) row) equation.rows.items) equations.now
        || (list_any (λ latch. latch.next.id.number == net) latches.now || list_any (λ literal. literal.id.number == net) outputs.now)) }
{
    equations_have(net, equations) || (latches_have(net, latches) || literals_have(net, outputs))
}

fn is_driven(net: u32, equations: &[Equation], latches: &[Latch]) -> bool
    ensures { result ≡ (list_any (λ equation. equation.net.number == net) equations.now || list_any (λ latch. latch.out.number == net) latches.now) }
{
    equations_drive(net, equations) || latches_drive(net, latches)
}

/// Whether the net is read: in a row, as input of a latch, or as an output. It takes linear time.
pub(crate) fn is_read(machine: &RawMachine, net: u32) -> bool
    ensures { result ≡ is_read (machine_of machine.now) net }
{
    stands_in(
        net,
        machine.equations.as_slice(),
        machine.latches.as_slice(),
        machine.outputs.as_slice(),
    )
}

/// Whether the net is driven by an equation or a latch. It takes linear time.
pub(crate) fn is_made(machine: &RawMachine, net: u32) -> bool
    ensures { result ≡ is_made (machine_of machine.now) net }
{
    is_driven(
        net,
        machine.equations.as_slice(),
        machine.latches.as_slice(),
    )
}

/// Whether the net is an input.
pub(crate) fn is_input(machine: &RawMachine, net: u32) -> bool
    ensures { result ≡ is_input (machine_of machine.now) net }
{
    nets_have(net, machine.inputs.as_slice())
}
