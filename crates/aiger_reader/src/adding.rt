//! What the units of each section add to a machine.

ghost use Rattle.std.specs.Prelude.{◌≡◌, ◌<◌, ◌^◌, ◌+◌, ◌-◌, true, false, Some, None, Ok, Err, IfOk, IfErr, OnOk, length, unwrap_or};
ghost use Rattle.source_machine.specs.Machines.{machine_of, literal_of, latch_of, equation_of};
ghost use Rattle.source_machine.specs.Additions.{with_input, with_latch, with_equation, with_output};
ghost use Rattle.aiger_reader.specs.Units.{line_of};
ghost use Rattle.aiger_reader.specs.Numbers.{numbers_of, one_of, three_of};
ghost use Rattle.aiger_reader.specs.LineChecks.{plain_literal, plain_latch, plain_and, input_refusal, latch_refusal, output_refusal, and_refusal};
ghost use Rattle.aiger_reader.specs.Symbols.{symbol_in, symbol_refusal, with_name};
ghost use Rattle.aiger_reader.specs.Sections.{latch_said};
ghost use Rattle.aiger_reader.specs.Machines.{input_of, output_of, and_of};
ghost use Rattle.aiger_reader.specs.Building.{with_inputs, with_symbol, Refuses};

use crate::headers::{Header, Spelling};
use crate::line_checks::{and_refusal, input_refusal, latch_refusal, output_refusal};
use crate::numbers::{one_number, one_or_two_numbers, three_numbers, two_or_three_numbers};
use crate::refusals::{Refused, UnitRefusal};
use crate::symbols::{read_symbol, symbol_refusal};
use crate::units::line_of;
use pulse_ids::{Ident, Lit, Name, NetId, NoMemory};
use source_machine::{Cover, Equation, Latch, RawMachine, Unset};
use std::alloc::Global;

fn literal(code: u32) -> Lit
    ensures { literal_of result ≡ plain_literal code }
{
    Lit::new(NetId::new(code / 2), code % 2 == 1)
}

/// Goes on where nothing is refused.
fn allow(refusal: Option<UnitRefusal>) -> Result<(), UnitRefusal>
    ensures ok { OnOk result (refusal ≡ None) }
    ensures err { IfErr result (λ e. refusal ≡ Some e) }
{
    match refusal {
        Some(refusal) => Err(refusal),
        None => Ok(()),
    }
}

/// Adds the input of a line.
pub(crate) fn add_input(raw: &mut RawMachine, variables: u32, unit: &[u8]) -> Result<(), Refused>
    requires { variables < 2 ^ 30 }
    ensures right { OnOk result (input_refusal variables (one_of (numbers_of (line_of unit.now))) ≡ None) }
    ensures added { OnOk result (machine_of raw.new ≡ with_input (machine_of raw.old) (input_of unit.now) None) }
    ensures err { IfErr result (λ e. Refuses e (input_refusal variables (one_of (numbers_of (line_of unit.now))))) }
{
    let said = one_number(line_of(unit));
    allow(input_refusal(variables, said))?;
    raw.add_input(NetId::new(said.unwrap_or(0) / 2), None)?;
    Ok(())
}

/// What the line of a latch says.
fn latch_said(spelling: Spelling, left: u32, line: &[u8]) -> Option<(u32, u32, u32)>
    ensures { result ≡ latch_said spelling left (numbers_of line.now) }
{
    match spelling {
        Spelling::Ascii => two_or_three_numbers(line),
        Spelling::Binary => {
            let (next, reset) = one_or_two_numbers(line)?;
            Some((left, next, reset))
        }
    }
}

fn latch_of(unset: Unset, said: (u32, u32, u32)) -> Latch
    ensures { latch_of result ≡ plain_latch unset said }
{
    let (left, next, reset) = said;
    let init = match (reset, unset) {
        (0, _) => false,
        (1, _) => true,
        (_, Unset::One) => true,
        _ => false,
    };
    Latch {
        out: NetId::new(left / 2),
        init,
        next: literal(next),
    }
}

/// Adds the latch of a line, which has this number and, in the binary spelling, this left side.
pub(crate) fn add_latch(
    raw: &mut RawMachine,
    unset: Unset,
    header: Header,
    latch: u32,
    left: u32,
    unit: &[u8],
) -> Result<(), Refused>
    requires { header.variables < 2 ^ 30 }
    ensures right { OnOk result (latch_refusal unset header.variables latch (latch_said header.spelling left (numbers_of (line_of unit.now))) ≡ None) }
    ensures added { OnOk result (machine_of raw.new
        ≡ with_latch (machine_of raw.old) (plain_latch unset (unwrap_or (latch_said header.spelling left (numbers_of (line_of unit.now))) (0, 0, 0)))) }
    ensures err { IfErr result (λ e. Refuses e (latch_refusal unset header.variables latch (latch_said header.spelling left (numbers_of (line_of unit.now))))) }
{
    let said = latch_said(header.spelling, left, line_of(unit));
    allow(latch_refusal(unset, header.variables, latch, said))?;
    raw.add_latch(latch_of(unset, said.unwrap_or((0, 0, 0))))?;
    Ok(())
}

/// Adds the output of a line.
pub(crate) fn add_output(raw: &mut RawMachine, variables: u32, unit: &[u8]) -> Result<(), Refused>
    requires { variables < 2 ^ 30 }
    ensures right { OnOk result (output_refusal variables (one_of (numbers_of (line_of unit.now))) ≡ None) }
    ensures added { OnOk result (machine_of raw.new ≡ with_output (machine_of raw.old) (output_of unit.now) None) }
    ensures err { IfErr result (λ e. Refuses e (output_refusal variables (one_of (numbers_of (line_of unit.now))))) }
{
    let said = one_number(line_of(unit));
    allow(output_refusal(variables, said))?;
    raw.add_output(literal(said.unwrap_or(0)), None)?;
    Ok(())
}

fn conjunction(alloc: Global, said: (u32, u32, u32)) -> Result<Equation, NoMemory>
    ensures { IfOk result (λ equation. equation_of equation ≡ plain_and said) }
{
    let (left, first, second) = said;
    let mut cube = Cover::new(alloc);
    cube.push(literal(first))?;
    cube.push(literal(second))?;
    let mut rows = Vec::with_capacity(alloc, 1)?;
    rows.push(cube)?;
    Ok(Equation {
        net: NetId::new(left / 2),
        on: true,
        rows,
    })
}

/// Adds the conjunction of a left side and two literals.
pub(crate) fn add_conjunction(
    alloc: Global,
    raw: &mut RawMachine,
    said: (u32, u32, u32),
) -> Result<(), NoMemory>
    ensures { OnOk result (machine_of raw.new ≡ with_equation (machine_of raw.old) (plain_and said)) }
{
    let equation = conjunction(alloc, said)?;
    raw.add_equation(equation)
}

/// Adds the conjunction of a line.
pub(crate) fn add_and(
    alloc: Global,
    raw: &mut RawMachine,
    variables: u32,
    unit: &[u8],
) -> Result<(), Refused>
    requires { variables < 2 ^ 30 }
    ensures right { OnOk result (and_refusal variables (three_of (numbers_of (line_of unit.now))) ≡ None) }
    ensures added { OnOk result (machine_of raw.new ≡ with_equation (machine_of raw.old) (and_of unit.now)) }
    ensures err { IfErr result (λ e. Refuses e (and_refusal variables (three_of (numbers_of (line_of unit.now))))) }
{
    let said = three_numbers(line_of(unit));
    allow(and_refusal(variables, said))?;
    add_conjunction(alloc, raw, said.unwrap_or((0, 0, 0)))?;
    Ok(())
}

/// Adds the inputs of the binary spelling, which are the first variables.
pub(crate) fn add_inputs(raw: &mut RawMachine, inputs: u32) -> Result<(), NoMemory>
    requires { inputs < 2 ^ 31 }
    ensures { OnOk result (machine_of raw.new ≡ with_inputs (machine_of raw.old) 1 inputs) }
{
    for input in 0..inputs {
        raw.add_input(NetId::new(input + 1), None)?;
    }
    Ok(())
}

/// Names an input port, where it has no name.
fn name_input(alloc: Global, raw: &mut RawMachine, place: u32, name: &[u8]) -> Result<(), NoMemory>
    requires { place < length raw.old.input_names.items }
    ensures { OnOk result (machine_of raw.new ≡ record (machine_of raw.old) { input_names = with_name place name.now (machine_of raw.old).input_names }) }
{
    if raw.input_names[place as usize].is_none() {
        raw.name_input(place, Name::new(alloc, name)?);
    }
    Ok(())
}

/// Names an output port, where it has no name.
fn name_output(alloc: Global, raw: &mut RawMachine, place: u32, name: &[u8]) -> Result<(), NoMemory>
    requires { place < length raw.old.output_names.items }
    ensures { OnOk result (machine_of raw.new ≡ record (machine_of raw.old) { output_names = with_name place name.now (machine_of raw.old).output_names }) }
{
    if raw.output_names[place as usize].is_none() {
        raw.name_output(place, Name::new(alloc, name)?);
    }
    Ok(())
}

/// Gives a name to the port of a letter and a place.
fn name_port(
    alloc: Global,
    raw: &mut RawMachine,
    letter: u8,
    place: u32,
    name: &[u8],
) -> Result<(), NoMemory>
    requires inputs { letter ≡ 105 → place < length raw.old.input_names.items }
    requires outputs { letter ≡ 111 → place < length raw.old.output_names.items }
    ensures { OnOk result (machine_of raw.new ≡ with_symbol (machine_of raw.old) (Some (letter, place, name.now))) }
{
    if letter == b'i' {
        name_input(alloc, raw, place, name)
    } else if letter == b'o' {
        name_output(alloc, raw, place, name)
    } else {
        Ok(())
    }
}

/// Adds the name of a symbol's line.
pub(crate) fn add_symbol(
    alloc: Global,
    raw: &mut RawMachine,
    header: Header,
    line: &[u8],
) -> Result<(), Refused>
    requires inputs { length raw.old.input_names.items ≡ header.inputs }
    requires outputs { length raw.old.output_names.items ≡ header.outputs }
    ensures right { OnOk result (symbol_refusal header (symbol_in line.now) ≡ None) }
    ensures added { OnOk result (machine_of raw.new ≡ with_symbol (machine_of raw.old) (symbol_in line.now)) }
    ensures err { IfErr result (λ e. Refuses e (symbol_refusal header (symbol_in line.now))) }
{
    let Some((letter, place, name)) = read_symbol(line) else {
        return Err(Refused::Unit(UnitRefusal::BadLine));
    };
    allow(symbol_refusal(header, letter, place, name))?;
    name_port(alloc, raw, letter, place, name)?;
    Ok(())
}
