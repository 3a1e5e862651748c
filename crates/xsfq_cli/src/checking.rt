//! `check`: whether a netlist is sound.

ghost use Rattle.std.specs.Prelude.{IsTrue, OnOk};
ghost use Rattle.byte_ports.specs.Writing.{WritesText};
ghost use Rattle.xsfq_cli.specs.Checked.{sound_line};

use crate::commands::Command;
use crate::netlists::read_sound;
use byte_ports::{Failed, Sink, Source};
use cell_netlist::{Netlist, SoundNet};
use netlist_reader::texts_are_read;
use pulse_world::every_order;
use run_outcomes::Outcome;
use std::alloc::Global;
use text_pieces::write_numbered;

/// Checks whether the netlist of an input is sound.
#[derive(Clone, Copy, Drop)]
pub(crate) struct Check;

/// Writes the line of a sound netlist and flushes.
fn emit<K: Sink>(net: &Netlist, output: &mut K) -> Result<(), Failed>
    ensures written { WritesText (K.taken output.old) (K.taken output.new) (K.faults output.old) (K.faults output.new) result (sound_line net.now) }
    ensures flushed { OnOk result (IsTrue (K.flushed output.new)) }
{
    write_numbered(b"sound ", net.wires(), b"\n", output)?;
    output.flush()
}

impl Command for Check {
    ghost use Rattle.std.specs.Prelude.{◌≡◌, ⊤};
    ghost use Rattle.xsfq_cli.specs.declared.orders.Order.TheVariants as orders;
    ghost use Rattle.run_outcomes.specs.declared.outcomes.Outcome.TheVariants as outcomes;
    ghost use Rattle.xsfq_cli.specs.Checked.{sound_line};

    type Task = SoundNet;

    ghost order = { λ _. orders.Check };

    ghost ready = { λ _. ⊤ };

    ghost tells = { λ net text ending. (text ≡ sound_line net) × (ending ≡ outcomes.Done) };

    fn prepare<S: Source>(self, alloc: Global, input: &mut S) -> Result<SoundNet, Outcome> {
        // The laws that the clause rests on; these calls do nothing.
        texts_are_read();
        every_order();
        let net = read_sound(alloc, input)?;
        let _ = net.net().wires();
        Ok(net)
    }

    fn write<K: Sink>(task: SoundNet, output: &mut K) -> Result<Outcome, Failed> {
        emit(task.net(), output)?;
        Ok(Outcome::Done)
    }
}
