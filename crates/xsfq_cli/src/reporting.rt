//! `report`: what a sound netlist costs and how deep it is.

ghost use Rattle.std.specs.Prelude.{IfOk, IsTrue, OnOk};
ghost use Rattle.byte_ports.specs.Writing.{WritesText};
ghost use Rattle.cell_netlist.specs.Netlists.{IsNetlist};
ghost use Rattle.junction_report.specs.Reports.{IsReport};
ghost use Rattle.junction_report.specs.Texts.{report_text};

use crate::commands::Command;
use crate::netlists::read_sound;
use byte_ports::{Failed, Sink, Source};
use cell_netlist::SoundNet;
use junction_report::{Report, report, write_report};
use netlist_reader::texts_are_read;
use pulse_ids::NoMemory;
use pulse_world::every_order;
use run_outcomes::Outcome;
use std::alloc::Global;

/// Reports on the netlist of an input, where it is sound.
#[derive(Clone, Copy, Drop)]
pub(crate) struct MakeReport;

/// The report on a sound netlist, which is given up.
fn reported(alloc: Global, sound: SoundNet) -> Result<Report, NoMemory>
    ensures netlist { IsNetlist sound }
    ensures report { IfOk result (λ told. IsReport sound told) }
{
    let _ = sound.net().wires(); // the proof learns that it is a netlist
    report(alloc, &sound)
}

/// Writes a report whole and flushes.
fn emit<K: Sink>(report: &Report, output: &mut K) -> Result<(), Failed>
    ensures written { WritesText (K.taken output.old) (K.taken output.new) (K.faults output.old) (K.faults output.new) result (report_text report.now) }
    ensures flushed { OnOk result (IsTrue (K.flushed output.new)) }
{
    write_report(report, output)?;
    output.flush()
}

impl Command for MakeReport {
    ghost use Rattle.std.specs.Prelude.{◌≡◌, ⊤};
    ghost use Rattle.junction_report.specs.Texts.{report_text};
    ghost use Rattle.xsfq_cli.specs.declared.orders.Order.TheVariants as orders;
    ghost use Rattle.run_outcomes.specs.declared.outcomes.Outcome.TheVariants as outcomes;

    type Task = Report;

    ghost order = { λ _. orders.Report };

    ghost ready = { λ _. ⊤ };

    ghost tells = { λ report text ending. (text ≡ report_text report) × (ending ≡ outcomes.Done) };

    fn prepare<S: Source>(self, alloc: Global, input: &mut S) -> Result<Report, Outcome> {
        let net = read_sound(alloc, input)?;
        let told = reported(alloc, net)?;
        // The laws that the clause rests on; these calls do nothing.
        texts_are_read();
        every_order();
        Ok(told)
    }

    fn write<K: Sink>(task: Report, output: &mut K) -> Result<Outcome, Failed> {
        emit(&task, output)?;
        Ok(Outcome::Done)
    }
}
