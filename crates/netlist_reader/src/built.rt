//! What the lines so far have built.

ghost use Rattle.std.specs.Prelude.{◌≡◌, true, Some, None, OnOk};
ghost use Rattle.word_scan.specs.Lines.{HasNoFeed};
ghost use Rattle.netlist_reader.specs.declared.statements.Statement.TheVariants as statements;
ghost use Rattle.netlist_reader.specs.Statements.{statement_in};
ghost use Rattle.netlist_reader.specs.Limits.{over_name, limit_of};
ghost use Rattle.netlist_reader.specs.Places.{fits_behind};
ghost use Rattle.netlist_reader.specs.Building.{with_statement, inputs_after, IsFew};

use crate::limits::limit_of;
use crate::places::{Section, fits_behind, follows, section_of};
use crate::refusals::NetRefusal;
use crate::statements::{Statement, statement_in};
use crate::words::name_in;
use cell_netlist::{Netlist, StateLine};
use pulse_ids::{Name, NoMemory};
use std::alloc::Global;

/// The section of the last line, the number of lines, the number of input ports that they say, and the netlist.
#[derive(Debug, Drop)]
pub struct Built {
    pub(crate) last: Option<Section>,
    pub(crate) lines: u32,
    pub(crate) inputs: Option<u32>,
    pub(crate) net: Netlist,
}

/// The number of input ports that is known after a statement.
fn inputs_after(inputs: Option<u32>, statement: Statement) -> Option<u32>
    ensures { result ≡ inputs_after inputs statement }
{
    match statement {
        Statement::Ports(inputs, _) => Some(inputs),
        _ => inputs,
    }
}

/// Names an input port by the name in its line.
fn name_input(alloc: Global, net: &mut Netlist, line: &[u8], port: u32) -> Result<(), NoMemory>
    requires plain { HasNoFeed line.now }
    requires said { statement_in line.now ≡ Some (statements.InputName port) }
    requires fits { fits_behind net.old (statements.InputName port) ≡ true }
    requires short { over_name line.now ≡ None }
    ensures { OnOk result (net.new ≡ with_statement line.now (statements.InputName port) net.old) }
{
    let name = Name::new(alloc, name_in(line))?;
    net.name_input(port, name)
}

/// Names an output port by the name in its line.
fn name_output(alloc: Global, net: &mut Netlist, line: &[u8], port: u32) -> Result<(), NoMemory>
    requires plain { HasNoFeed line.now }
    requires said { statement_in line.now ≡ Some (statements.OutputName port) }
    requires fits { fits_behind net.old (statements.OutputName port) ≡ true }
    requires short { over_name line.now ≡ None }
    ensures { OnOk result (net.new ≡ with_statement line.now (statements.OutputName port) net.old) }
{
    let name = Name::new(alloc, name_in(line))?;
    net.name_output(port, name)
}

/// Adds a state line.
fn add_state(net: &mut Netlist, line: &[u8], state: StateLine) -> Result<(), NoMemory>
    requires fits { fits_behind net.old (statements.State state) ≡ true }
    requires limit { limit_of line.now (statements.State state) ≡ None }
    ensures { OnOk result (net.new ≡ with_statement line.now (statements.State state) net.old) }
{
    net.add_state(state)
}

/// Adds what a line says.
fn add(alloc: Global, net: &mut Netlist, line: &[u8], statement: Statement) -> Result<(), NoMemory>
    requires few { IsFew net.old }
    requires plain { HasNoFeed line.now }
    requires said { statement_in line.now ≡ Some statement }
    requires fits { fits_behind net.old statement ≡ true }
    requires limits { limit_of line.now statement ≡ None }
    ensures { OnOk result (net.new ≡ with_statement line.now statement net.old) }
{
    match statement {
        Statement::Version(version) => {
            *net = Netlist::versioned(alloc, version, 0, 0);
        }
        Statement::Ports(inputs, outputs) => {
            *net = Netlist::versioned(alloc, net.version(), inputs, outputs);
        }
        Statement::Input(rail) => {
            net.add_input(rail)?;
        }
        Statement::OneCell(cell) => {
            net.add_cell(cell)?;
        }
        Statement::Output(rail) => {
            net.add_output(rail)?;
        }
        Statement::State(state) => {
            add_state(net, line, state)?;
        }
        Statement::InputName(port) => {
            name_input(alloc, net, line, port)?;
        }
        Statement::OutputName(port) => {
            name_output(alloc, net, line, port)?;
        }
        Statement::End => {}
    }
    Ok(())
}

impl Built {
    ghost use Rattle.std.specs.Prelude.{◌≡◌, ◌<◌, ◌+◌, ◌^◌, false, Some, Ok, Err, IfErr, OnErr, OnOk};
    ghost use Rattle.word_scan.specs.Lines.{HasNoFeed};
    ghost use Rattle.netlist_reader.specs.Statements.{statement_in};
    ghost use Rattle.netlist_reader.specs.Building.{allows, has_ended, inputs_refused, line_read, IsBounded, start, OrMemory};

    /// Before the first line.
    pub(crate) fn new(alloc: Global) -> Built
        ensures { result ≡ start }
    {
        Built {
            last: None,
            lines: 0,
            inputs: None,
            net: Netlist::new(alloc, 0, 0),
        }
    }

    /// Whether the last line was `end`.
    pub(crate) fn has_ended(&self) -> bool
        ensures { result ≡ has_ended self.now }
    {
        match self.last {
            Some(Section::End) => true,
            _ => false,
        }
    }

    /// Whether a statement stands in its place.
    fn allows(&self, statement: Statement) -> bool
        ensures { result ≡ allows self.now statement }
    {
        follows(self.last, section_of(statement)) && fits_behind(&self.net, statement)
    }

    /// Reads a further line.
    pub(crate) fn read(&mut self, alloc: Global, line: &[u8]) -> Result<(), NetRefusal>
        requires bounded { IsBounded self.old }
        requires few { self.old.lines < 2 ^ 27 }
        requires going { has_ended self.old ≡ false }
        requires plain { HasNoFeed line.now }
        ensures bounded { OnOk result (IsBounded self.new) }
        ensures count { OnOk result (self.new.lines ≡ self.old.lines + 1) }
        ensures ok { OnOk result (line_read self.old line.now ≡ Ok self.new) }
        ensures err { IfErr result (λ refusal. OrMemory refusal (line_read self.old line.now ≡ Err refusal)) }
        ensures counted { OnErr result (self.new.lines ≡ self.old.lines) }
        ensures known { IfErr result (λ refusal. self.new.inputs ≡ inputs_refused refusal self.old.inputs (statement_in line.now)) }
    {
        let bad = NetRefusal::BadLine(self.lines + 1);
        let statement = statement_in(line).ok_or(bad)?;
        if !self.allows(statement) {
            return Err(bad);
        }
        if let Some(quantity) = limit_of(line, statement) {
            self.inputs = inputs_after(self.inputs, statement);
            return Err(NetRefusal::Limit(quantity));
        }
        add(alloc, &mut self.net, line, statement)?;
        self.inputs = inputs_after(self.inputs, statement);
        self.last = Some(section_of(statement));
        self.lines += 1;
        Ok(())
    }
}
