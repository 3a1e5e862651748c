//! The verdict on a netlist.

ghost use Rattle.std.specs.Prelude.{◌≡◌, IfOk, IfErr};
ghost use Rattle.cell_netlist.specs.Sound.{IsSound};
ghost use Rattle.cell_netlist.specs.Wired.{IsWired};
ghost use Rattle.rail_checker.specs.Verdicts.{IsVerdict, IsJudged, IsClear};
ghost use Rattle.rail_checker.specs.Refused.{IsRefused, IsRefusedByWires};

use crate::counting::wires_unsound;
use crate::driving_cells::driving_cells;
use crate::grounding::{grounding, loop_at};
use crate::rails::rails_unsound;
use crate::roles::roles_unsound;
use crate::states::states_unsound;
use cell_netlist::{Netlist, SoundNet, Unsound, one_refusal};
use pulse_ids::NoMemory;
use std::alloc::Global;

/// Why a netlist is not taken as sound. The netlist is handed back.
#[derive(Debug, Drop)]
pub enum Refused {
    /// The netlist is unsound: the first rule that it breaks, at the lowest number.
    Unsound(Netlist, Unsound),
    /// Memory was refused.
    NoMemory(Netlist),
}

/// The netlist, with the tables of its wires, where it is sound. Else it is handed back: with the first rule of
/// soundness that it breaks, at the lowest number, or because memory was refused.
///
/// It takes time and memory linear in the lines of the netlist, whatever their order, but that the input rails are
/// sorted by port.
pub fn check(alloc: Global, net: Netlist) -> Result<SoundNet, Refused>
    ensures sound { IfOk result (λ sound. (sound ≡ net) × IsSound net) }
    ensures refused { IfErr result (λ refused. IsRefused net refused) }
{
    match first_unsound(alloc, &net) {
        Ok(None) => match SoundNet::adopt(alloc, net) {
            Ok(sound) => Ok(sound),
            Err(back) => Err(Refused::NoMemory(back)),
        },
        Ok(Some(unsound)) => Err(Refused::Unsound(net, unsound)),
        Err(_) => Err(Refused::NoMemory(net)),
    }
}

/// The netlist, where each of its wires has one driver and one reader. Else it is handed back: with the first rule of
/// wiring that it breaks, at the lowest number, or because memory was refused. No other rule is judged.
///
/// It takes time linear in the lines of the netlist.
#[tactic(auto, using(crate::proofs::Refusing::wired))]
pub fn check_wires(alloc: Global, net: Netlist) -> Result<Netlist, Refused>
    ensures wired { IfOk result (λ same. (same ≡ net) × IsWired net) }
    ensures refused { IfErr result (λ refused. IsRefusedByWires net refused) }
{
    match wires_unsound(alloc, &net) {
        Ok(None) => Ok(net),
        Ok(Some(unsound)) => Err(Refused::Unsound(net, unsound)),
        Err(_) => Err(Refused::NoMemory(net)),
    }
}

/// The first refusal of a netlist, or none where it is sound.
fn first_unsound(alloc: Global, net: &Netlist) -> Result<Option<Unsound>, NoMemory>
    ensures { IfOk result (λ found. IsVerdict net.now found) }
{
    one_refusal();
    judged(alloc, net)
}

/// The first refusal of a netlist, or none where it breaks no rule.
fn judged(alloc: Global, net: &Netlist) -> Result<Option<Unsound>, NoMemory>
    ensures { IfOk result (λ found. IsJudged net.now 11 found) }
{
    if let Some(unsound) = wires_unsound(alloc, net)? {
        return Ok(Some(unsound));
    }
    if let Some(unsound) = rails_unsound(alloc, net)? {
        return Ok(Some(unsound));
    }
    if let Some(unsound) = cells_unsound(alloc, net)? {
        return Ok(Some(unsound));
    }
    states_unsound(alloc, net)
}

/// The first refusal by the rules on cells, or none where they hold.
fn cells_unsound(alloc: Global, net: &Netlist) -> Result<Option<Unsound>, NoMemory>
    requires { IsClear net.now 7 }
    ensures { IfOk result (λ found. IsJudged net.now 10 found) }
{
    let drivers = driving_cells(alloc, net)?;
    let order = grounding(alloc, net, drivers.as_slice())?;
    if let Some(unsound) = loop_at(net, drivers.as_slice(), &order) {
        return Ok(Some(unsound));
    }
    roles_unsound(alloc, net, drivers.as_slice(), &order)
}
