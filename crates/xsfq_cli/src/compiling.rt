//! `compile`: from a source to its netlist.

ghost use Rattle.std.specs.Prelude.{IfOk, IsTrue, OnOk};
ghost use Rattle.byte_ports.specs.Writing.{WritesText};
ghost use Rattle.cell_netlist.specs.Text.{text_of};
ghost use Rattle.xsfq_cli.specs.Headline.{ComputesOnce, IsNetOf};

use crate::commands::Command;
use crate::consuming::read_whole;
use crate::sources::SourceReader;
use aiger_reader::early_refusals_stand;
use byte_ports::{Failed, Sink, Source};
use cell_netlist::{Ask, Netlist, SoundNet, Version};
use graph_build::build;
use netlist_reader::texts_are_read;
use netlist_writer::write_netlist;
use pulse_ids::NoMemory;
use pulse_world::every_order;
use rail_demand::demand;
use rail_mapper::map;
use run_outcomes::Outcome;
use source_machine::{Machine, one_run};
use std::alloc::Global;

/// Compiles a source to a netlist of this version, with these rails of each output port.
#[derive(Drop)]
pub(crate) struct Compile {
    pub(crate) ask: Ask,
    pub(crate) version: Version,
}

/// The netlist of a machine: its graph, the rails that are needed, and the cells for them.
pub(crate) fn netlist_of(
    alloc: Global,
    machine: &Machine,
    ask: Ask,
    version: Version,
) -> Result<SoundNet, NoMemory>
    ensures computes { ComputesOnce machine.now }
    ensures net { IfOk result (λ net. IsNetOf machine.now ask version net) }
{
    // The laws that the clauses rest on, and what a machine and a netlist are; these calls do nothing.
    one_run();
    every_order();
    texts_are_read();
    let _ = machine.raw();
    let built = build(alloc, machine)?;
    let needed = demand(alloc, &built, ask)?;
    let net = map(alloc, machine, &built, &needed, ask, version)?;
    let _ = net.net().wires();
    Ok(net)
}

/// Writes a netlist whole and flushes.
fn emit<K: Sink>(net: &Netlist, output: &mut K) -> Result<(), Failed>
    ensures written { WritesText (K.taken output.old) (K.taken output.new) (K.faults output.old) (K.faults output.new) result (text_of net.now) }
    ensures flushed { OnOk result (IsTrue (K.flushed output.new)) }
{
    write_netlist(net, output)?;
    output.flush()
}

/// The same of a sound netlist.
fn emit_sound<K: Sink>(net: &SoundNet, output: &mut K) -> Result<(), Failed>
    ensures written { WritesText (K.taken output.old) (K.taken output.new) (K.faults output.old) (K.faults output.new) result (text_of net.now) }
    ensures flushed { OnOk result (IsTrue (K.flushed output.new)) }
{
    emit(net.net(), output)
}

impl Command for Compile {
    ghost use Rattle.std.specs.Prelude.{◌≡◌, ⊤};
    ghost use Rattle.cell_netlist.specs.Text.{text_of};
    ghost use Rattle.xsfq_cli.specs.declared.orders.Order.TheVariants as orders;
    ghost use Rattle.run_outcomes.specs.declared.outcomes.Outcome.TheVariants as outcomes;

    type Task = SoundNet;

    ghost order = { λ command. orders.Compile command.ask command.version };

    ghost ready = { λ _. ⊤ };

    ghost tells = { λ net text ending. (text ≡ text_of net) × (ending ≡ outcomes.Done) };

    fn prepare<S: Source>(self, alloc: Global, input: &mut S) -> Result<SoundNet, Outcome> {
        early_refusals_stand();
        blif_reader::early_refusals_stand();
        let machine = read_whole(input, SourceReader::new(alloc))?;
        let net = netlist_of(alloc, &machine, self.ask, self.version)?;
        Ok(net)
    }

    fn write<K: Sink>(task: SoundNet, output: &mut K) -> Result<Outcome, Failed> {
        emit_sound(&task, output)?;
        Ok(Outcome::Done)
    }
}
