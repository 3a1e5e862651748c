//! Ports out of range, and input rails that stand twice.

ghost use Rattle.std.specs.Prelude.{◌≡◌, IfOk, nat_le};
ghost use Rattle.std.specs.List.{position};
ghost use Rattle.rail_checker.specs.Rails.{IsTwice};
ghost use Rattle.rail_checker.specs.Verdicts.{IsFirst, IsJudged, IsClear};

use crate::repeats::first_twice;
use crate::scans::number;
use cell_netlist::{Netlist, Rail, RailLine, Unsound};
use pulse_ids::{Ident, NoMemory, RailId, Row};
use std::alloc::Global;

/// The first refusal by the rules on rails.
pub(crate) fn rails_unsound(alloc: Global, net: &Netlist) -> Result<Option<Unsound>, NoMemory>
    requires { IsClear net.now 4 }
    ensures { IfOk result (λ found. IsJudged net.now 7 found) }
{
    if let Some(unsound) = input_range(net) {
        return Ok(Some(unsound));
    }
    if let Some(unsound) = output_range(net) {
        return Ok(Some(unsound));
    }
    rail_twice(alloc, net)
}

/// The lowest input rail whose port is out of range.
fn input_range(net: &Netlist) -> Option<Unsound>
    requires { IsClear net.now 4 }
    ensures { IsJudged net.now 5 result }
{
    let rail = first_past(net.input_rails(), net.inputs())?;
    Some(Unsound::PortRange(RailLine::Input(RailId::new(rail))))
}

/// The lowest output rail whose port is out of range.
fn output_range(net: &Netlist) -> Option<Unsound>
    requires { IsClear net.now 5 }
    ensures { IsJudged net.now 6 result }
{
    let rail = first_past(net.output_rails(), net.outputs())?;
    Some(Unsound::PortRange(RailLine::Output(RailId::new(rail))))
}

/// The lowest rail whose port isn't below the number of ports.
fn first_past(rails: &Row<RailId, Rail>, ports: u32) -> Option<u32>
    ensures { result ≡ position (λ rail. nat_le ports rail.port) rails.now }
{
    let _below = rails.len();
    number(past_at(rails.items(), ports))
}

fn past_at(rails: &[Rail], ports: u32) -> Option<usize>
    ensures { result ≡ position (λ rail. nat_le ports rail.port) rails.now }
{
    rails.iter().position(|rail| ports <= rail.port)
}

/// The lowest input rail whose port and sign an earlier one has.
fn rail_twice(alloc: Global, net: &Netlist) -> Result<Option<Unsound>, NoMemory>
    requires { IsClear net.now 6 }
    ensures { IfOk result (λ found. IsJudged net.now 7 found) }
{
    let _most = net.wires();
    let found = first_twice(alloc, net.input_rails())?;
    Ok(refusal_of(net, found))
}

/// The refusal of the lowest rail that stands twice.
fn refusal_of(net: &Netlist, found: Option<u32>) -> Option<Unsound>
    requires clear { IsClear net.now 6 }
    requires found { IsFirst (IsTwice net.now.input_rails) found }
    ensures { IsJudged net.now 7 result }
{
    let rail = found?;
    Some(Unsound::RailTwice(RailId::new(rail)))
}
