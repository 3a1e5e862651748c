//! What the logical lines so far have built.

ghost use Rattle.std.specs.Prelude.{◌≡◌, ◌≤◌, ◌<◌, ◌^◌, ◌+◌, ◌++◌, ◌∷◌, [], Some, None, Ok, Err, OnOk, IfOk, IfErr, length};
ghost use Rattle.pulse_ids.specs.Quantities.{greatest_of};
ghost use Rattle.pulse_ids.specs.declared.quantities.Quantity.TheVariants as quantities;
ghost use Rattle.numbered_names.specs.Names.{number_for};
ghost use Rattle.blif_reader.specs.declared.refusals.LineRefusal.TheVariants as refusals;
ghost use Rattle.blif_reader.specs.Refusing.{FailsBy};
ghost use Rattle.blif_reader.specs.Latches.{net_read};

use crate::latch_kinds::LatchKind;
use crate::open_equations::OpenEquation;
use crate::refusals::LineRefusal;
use numbered_names::Names;
use pulse_ids::{Ident, Name, NetId, NoMemory, Quantity};
use source_machine::RawMachine;
use std::alloc::Global;
use std::marker::Model;

/// Whether `.model` and `.end` came; the names of the nets; the type and control that the first typed latch fixes; the
/// clock's name, and whether it stands in `.clock`; the number of rows and row literals; the equation to which rows may
/// still come, and the machine without it.
#[derive(Debug, Drop)]
pub struct State {
    pub(crate) modelled: bool,
    pub(crate) ended: bool,
    pub(crate) nets: Names,
    pub(crate) typed: Option<LatchKind>,
    pub(crate) clock: Option<Name>,
    pub(crate) clocked: bool,
    pub(crate) size: usize,
    pub(crate) unended: Option<OpenEquation>,
    pub(crate) machine: RawMachine,
}

impl Model for State {
    ghost use Rattle.std.specs.Prelude.{◌≤◌, ◌^◌};
    ghost use Rattle.source_machine.specs.Machines.{machine_of};
    ghost use Rattle.blif_reader.specs.States.{BlifState};

    ghost Value = { BlifState };

    ghost view = { λ state. record {
      modelled = state.modelled;
      ended = state.ended;
      nets = state.nets;
      typed = state.typed;
      clock = state.clock;
      clocked = state.clocked;
      size = state.size;
      unended = state.unended;
      machine = machine_of state.machine;
    } };

    ghost invariant = { λ state. state.size ≤ 2 ^ 18 };
}

/// Goes on where there is no more than the greatest number of it.
pub(crate) fn within(quantity: Quantity, count: usize) -> Result<(), LineRefusal>
    ensures ok { OnOk result (count ≤ greatest_of quantity) }
    ensures err { IfErr result (λ refusal. (refusal ≡ refusals.Limit quantity) × (greatest_of quantity < count)) }
{
    if count as u64 > quantity.greatest() {
        return Err(LineRefusal::Limit(quantity));
    }
    Ok(())
}

/// Goes on where a name has no more bytes than a name may have.
pub(crate) fn short(name: &[u8]) -> Result<(), LineRefusal>
    ensures ok { OnOk result (length name.now ≤ greatest_of quantities.NameBytes) }
    ensures err { IfErr result (λ refusal. (refusal ≡ refusals.Limit quantities.NameBytes) × (greatest_of quantities.NameBytes < length name.now)) }
{
    within(Quantity::NameBytes, name.len())
}

/// The net of a name, which is a new one where it has no number.
pub(crate) fn net(nets: &mut Names, name: &[u8]) -> Result<NetId, LineRefusal>
    ensures ok { OnOk result (net_read nets.old name.now ≡ Ok nets.new) }
    ensures number { IfOk result (λ net. net.number ≡ number_for nets.old name.now) }
    ensures few { IfOk result (λ net. net.number ≤ 2 ^ 19) }
    ensures err { IfErr result (λ refusal. FailsBy refusal (net_read nets.old name.now)) }
{
    if let Some(number) = nets.find(name) {
        return Ok(NetId::new(number));
    }
    within(Quantity::Nets, nets.len() as usize + 1)?;
    let number = nets.add(name)?;
    Ok(NetId::new(number))
}

impl State {
    ghost use Rattle.std.specs.Prelude.{◌≡◌, OnOk};
    ghost use Rattle.blif_reader.specs.States.{nothing_read, closed};

    /// Before the first line. It takes no memory.
    pub(crate) fn new(alloc: Global) -> State
        ensures { result ≡ nothing_read }
    {
        State {
            modelled: false,
            ended: false,
            nets: Names::new(alloc),
            typed: None,
            clock: None,
            clocked: false,
            size: 0,
            unended: None,
            machine: RawMachine::bare(alloc, 0),
        }
    }

    /// Ends the rows of the last equation.
    pub(crate) fn close(&mut self) -> Result<(), NoMemory>
        ensures { OnOk result (self.new ≡ closed self.old) }
    {
        if let Some(unended) = self.unended.take() {
            self.machine.add_equation(unended.into_equation())?;
        }
        Ok(())
    }
}
