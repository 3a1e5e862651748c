//! What the table of answers gives. These functions do nothing: their clauses are the laws.

ghost use Rattle.netlist_reader.specs.Laws.{EarlyStands};
ghost use Rattle.simulation_reader.specs.Laws as inputs;
ghost use Rattle.xsfq_cli.specs.Laws.{AcceptedLaw, BoundedLaw, CheckedLaw, DoneLaw, MachineLaw, OneRefusal, OneVerdict, OnlyRefusedLaw, ReadFaultLaw, RefusalsAreOfBytes, RefusedHasNoText, RefusedLaw, ShownIsRefused, SimulatedLaw, SoundLaw, UnsoundLaw, UnreadLaw, UnwrittenLaw, UsageLaw, WorkloadLaw, WriteFaultLaw};
ghost use Rattle.xsfq_cli.specs.Examples.{WordsAreOrders};
ghost use Rattle.xsfq_cli.specs.SimulationTexts.{TextSaysBits, FaultedTextSaysBits, SchedulesAgree, OneSimulationText};
ghost use Rattle.xsfq_cli.specs.WorkloadTexts.{WorkloadIsCompiled, CounterIsCompiled, OneWorkText};
ghost use Rattle.xsfq_cli.specs.ReportLaws.{OneReportText, ReportedLaw, SoundIsReported, UnsoundIsNotReported};

use aiger_reader::early_refusals_stand;
use blif_reader::sources_are_told;
use cell_netlist::one_refusal;
use counter_sources::counters_are_read;
use junction_report::one_report;
use netlist_reader::texts_are_read;
use pulse_traces::{every_order_says_the_same, one_count, one_replay, one_simulation};
use simulation_reader::{inputs_have_their_form, refusals_are_of_bytes};
use source_machine::one_verdict;
use workload_circuits::counters_are_founded;

/// What the first bytes of a netlist's text show stands.
fn net_refusals_stand()
    ensures { EarlyStands }
{
    netlist_reader::early_refusals_stand();
}

/// What the first bytes of an input of `simulate` show stands.
fn input_refusals_stand()
    ensures { inputs.EarlyStands }
{
    simulation_reader::early_refusals_stand();
}

/// What a command makes of an input is one thing: one verdict of a source, one refusal of an input, and none where
/// there is a text for it. A refusal is one of the bytes. What the first bytes show is the refusal of the whole.
pub fn one_judgement()
    ensures verdict { OneVerdict }
    ensures refusal { OneRefusal }
    ensures no_text { RefusedHasNoText }
    ensures of_bytes { RefusalsAreOfBytes }
    ensures shown { ShownIsRefused }
{
    one_verdict();
    early_refusals_stand();
    blif_reader::early_refusals_stand();
    sources_are_told();
    refusals_are_of_bytes();
    one_refusal();
    net_refusals_stand();
    input_refusals_stand();
}

/// Each outcome comes exactly where the table says. Words that order nothing are `Usage`; a fault of a port is
/// the port's own outcome; a refusal of the input is its judgement; where nothing refuses it and no port failed,
/// its text is written. Refused memory may stand in place of the last two, and nothing was written then.
pub fn each_outcome_has_its_cause()
    ensures usage { UsageLaw }
    ensures read_fault { ReadFaultLaw }
    ensures write_fault { WriteFaultLaw }
    ensures unwritten { UnwrittenLaw }
    ensures unread { UnreadLaw }
    ensures refused { RefusedLaw }
    ensures accepted { AcceptedLaw }
    ensures only { OnlyRefusedLaw }
    ensures bounded { BoundedLaw }
{
    one_judgement();
}

/// The headline of `compile`, as the table gives it: what stands after `Done`, and that each source whose verdict
/// is a machine comes there, unless a port failed or memory was refused.
pub fn machines_are_compiled()
    ensures done { DoneLaw }
    ensures machine { MachineLaw }
{
    one_judgement();
    each_outcome_has_its_cause();
}

/// What stands after `Done` of `check`, and that each netlist's text comes there exactly where the netlist is sound, and
/// else to the first rule that it breaks, unless a port failed or memory was refused.
pub fn netlists_are_checked()
    ensures done { CheckedLaw }
    ensures sound { SoundLaw }
    ensures unsound { UnsoundLaw }
{
    one_judgement();
    each_outcome_has_its_cause();
    texts_are_read();
    one_refusal();
}

/// What stands after `Done` of `report`, which is one text only, and that each netlist's text comes there exactly where the
/// netlist is sound, and else to the first rule that it breaks, unless a port failed or memory was refused.
pub fn netlists_are_reported()
    ensures done { ReportedLaw }
    ensures one { OneReportText }
    ensures sound { SoundIsReported }
    ensures unsound { UnsoundIsNotReported }
{
    one_judgement();
    each_outcome_has_its_cause();
    texts_are_read();
    one_refusal();
    one_report();
}

/// What stands after `Done` of `simulate`, and after a script's fault. An input has one text by each schedule. Without a
/// trace, the text that ends with `Done` is that of the bits which a run of the rail equations carries, and so the same in
/// every order and by every script; where a script has a fault, it is that of the cycles before the faulty one.
pub fn netlists_are_simulated()
    ensures done { SimulatedLaw }
    ensures one { OneSimulationText }
    ensures bits { TextSaysBits }
    ensures faulted { FaultedTextSaysBits }
    ensures agree { SchedulesAgree }
{
    one_judgement();
    every_order_says_the_same();
    one_simulation();
    one_replay();
    inputs_have_their_form();
}

/// What `workload` answers. The netlist that it writes is one that `compile` makes of the counter's text, of which `compile`
/// makes no other than the counter's, and for a netlist the text is one.
pub fn workloads_are_done()
    ensures done { WorkloadLaw }
    ensures compiled { WorkloadIsCompiled }
    ensures counter { CounterIsCompiled }
    ensures one { OneWorkText }
{
    one_judgement();
    counters_are_read();
    counters_are_founded();
    one_count();
    one_report();
}

/// What some words order.
pub fn words_are_orders()
    ensures { WordsAreOrders }
{}
