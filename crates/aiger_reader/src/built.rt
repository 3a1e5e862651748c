//! What the units so far have built.

ghost use Rattle.std.specs.Prelude.{◌≡◌, ◌≤◌, ◌<◌, ◌^◌, ◌+◌, ◌-◌, Some, None, Ok, Err, IfOk, IfErr, OnOk, length};

use crate::adding;
use crate::deltas::{first_delta, second_delta};
use crate::headers::{Header, Spelling, read_header, spelling_of};
use crate::placing::{end_place, place_in};
use crate::refusals::{AigerCause, AigerRefusal, Refused, Shown, Stop, fault_at};
use crate::sections::{Section, kind_at};
use crate::symbols::begins_comment;
use crate::units::{UnitKind, line_of};
use pulse_ids::NoMemory;
use source_machine::{Place, RawMachine, Unset};
use std::alloc::Global;
use std::marker::Model;

/// The header, the number of units after it, the place of the next unit's first byte, the first
/// literal of a conjunction whose second delta is due, whether a comment has begun, and the machine.
#[derive(Debug, Drop)]
pub struct Built {
    header: Option<Header>,
    place: u32,
    start: u32,
    literal: u32,
    commented: bool,
    raw: RawMachine,
}

impl Model for Built {
    ghost use Rattle.source_machine.specs.Machines.{machine_of};
    ghost use Rattle.aiger_reader.specs.Building.{PlainBuilt};

    ghost Value = { PlainBuilt };

    ghost view = { λ built. record {
      header = built.header;
      place = built.place;
      start = built.start;
      literal = built.literal;
      commented = built.commented;
      machine = machine_of built.raw;
    } };
}

impl Built {
    ghost use Rattle.source_machine.specs.Fitting.{Fits};
    ghost use Rattle.source_machine.specs.Machines.{machine_of};
    ghost use Rattle.aiger_reader.specs.Readings.{machine_by};
    ghost use Rattle.std.specs.Prelude.{◌≡◌, ◌≤◌, ◌<◌, ◌^◌, ◌+◌, ◌-◌, false, Some, None, Ok, Err, IfOk, IfErr, OnOk, length};
    ghost use Rattle.aiger_reader.specs.Units.{line_of};
    ghost use Rattle.aiger_reader.specs.Symbols.{line_refusal};
    ghost use Rattle.aiger_reader.specs.Headers.{header_in};
    ghost use Rattle.aiger_reader.specs.Sections.{section_of, sections_end, kind_at, delta_left};
    ghost use Rattle.aiger_reader.specs.Sources.{limit};
    ghost use Rattle.aiger_reader.specs.declared.units.UnitKind.TheVariants as kinds;
    ghost use Rattle.word_scan.specs.Lines.{HasNoFeed};
    ghost use Rattle.aiger_reader.specs.declared.sections.Section.TheVariants as sections;
    ghost use Rattle.source_machine.specs.Additions.{bare, with_equation};
    ghost use Rattle.aiger_reader.specs.LineChecks.{plain_and};
    ghost use Rattle.aiger_reader.specs.Deltas.{delta_of, delta_value, first_delta_refusal, second_delta_refusal};
    ghost use Rattle.aiger_reader.specs.Building.{HasNames, refusal_in, PlainBuilt, nothing_built, Refuses, StopsFor, ReadsAs, unit_added, behind_added, completed, counted, header_read, body_read, unit_read, shown_read, place_of};
    ghost use Rattle.aiger_reader.specs.Bounds.{IsSmall, IsBounded};

    /// Before the first byte. It takes no memory.
    pub(crate) fn new(alloc: Global) -> Built
        ensures { result ≡ nothing_built }
    {
        Built {
            header: None,
            place: 0,
            start: 0,
            literal: 0,
            commented: false,
            raw: RawMachine::bare(alloc, 0),
        }
    }

    /// Where the sections of the binary spelling end, adds the inputs.
    fn complete(&mut self, header: Header) -> Result<(), NoMemory>
        requires { IsSmall header }
        ensures { OnOk result (self.new ≡ completed header self.old) }
    {
        match header.spelling {
            Spelling::Ascii => Ok(()),
            Spelling::Binary => {
                if self.place == header.sections_end() {
                    adding::add_inputs(&mut self.raw, header.inputs)?;
                }
                Ok(())
            }
        }
    }

    /// Counts one more unit of so many bytes.
    fn count(&mut self, unit: &[u8])
        requires few { self.old.place < 2 ^ 31 }
        requires room { self.old.start + length unit.now ≤ limit }
        ensures { self.new ≡ counted self.old unit.now }
    {
        self.place += 1;
        self.start += unit.len() as u32;
    }

    /// Reads the first unit.
    fn read_first(&mut self, alloc: Global, unit: &[u8]) -> Result<(), Refused>
        requires { length unit.now ≤ limit }
        ensures ok { OnOk result (header_read (header_in unit.now) unit.now ≡ Ok self.new) }
        ensures err { IfErr result (λ e. ReadsAs e (header_read (header_in unit.now) unit.now)) }
    {
        let header = read_header(unit)?;
        *self = Built {
            header: Some(header),
            place: 0,
            start: unit.len() as u32,
            literal: 0,
            commented: false,
            raw: RawMachine::bare(alloc, header.variables),
        };
        self.complete(header)?;
        Ok(())
    }

    /// Adds the latch of a line.
    fn add_latch(&mut self, unset: Unset, header: Header, unit: &[u8]) -> Result<(), Refused>
        requires small { IsSmall header }
        requires few { self.old.place < 2 ^ 29 }
        ensures right { OnOk result (refusal_in unset header self.old unit.now sections.Latches ≡ None) }
        ensures added { OnOk result (self.new ≡ unit_added unset header self.old unit.now sections.Latches) }
        ensures err { IfErr result (λ e. Refuses e (refusal_in unset header self.old unit.now sections.Latches)) }
    {
        let latch = self.place.saturating_sub(header.latches_from());
        let left = header.latch_left(latch);
        adding::add_latch(&mut self.raw, unset, header, latch, left, unit)
    }

    /// Keeps the first literal of a conjunction.
    fn add_first(&mut self, header: Header, unit: &[u8]) -> Result<(), Refused>
        requires small { IsSmall header }
        requires few { self.old.place < 2 ^ 29 }
        ensures right { OnOk result (first_delta_refusal (delta_left header self.old.place) (delta_of unit.now) ≡ None) }
        ensures added { OnOk result (self.new ≡ record self.old { literal = delta_left header self.old.place - delta_value unit.now }) }
        ensures err { IfErr result (λ e. Refuses e (first_delta_refusal (delta_left header self.old.place) (delta_of unit.now))) }
    {
        self.literal = first_delta(header.delta_left(self.place), unit)?;
        Ok(())
    }

    /// Adds the conjunction of a second delta.
    fn add_second(&mut self, alloc: Global, header: Header, unit: &[u8]) -> Result<(), Refused>
        requires small { IsSmall header }
        requires few { self.old.place < 2 ^ 29 }
        ensures right { OnOk result (second_delta_refusal self.old.literal (delta_of unit.now) ≡ None) }
        ensures added { OnOk result (self.new ≡ record self.old {
          machine = with_equation self.old.machine
              (plain_and (delta_left header self.old.place, self.old.literal, self.old.literal - delta_value unit.now));
        }) }
        ensures err { IfErr result (λ e. Refuses e (second_delta_refusal self.old.literal (delta_of unit.now))) }
    {
        let left = header.delta_left(self.place);
        let second = second_delta(self.literal, unit)?;
        adding::add_conjunction(alloc, &mut self.raw, (left, self.literal, second))?;
        Ok(())
    }

    /// Takes a line behind the sections.
    fn add_behind(&mut self, alloc: Global, header: Header, line: &[u8]) -> Result<(), Refused>
        requires inputs { length self.old.machine.input_names ≡ header.inputs }
        requires outputs { length self.old.machine.output_names ≡ header.outputs }
        ensures right { OnOk result (line_refusal header self.old.commented line.now ≡ None) }
        ensures added { OnOk result (self.new ≡ behind_added self.old line.now) }
        ensures err { IfErr result (λ e. Refuses e (line_refusal header self.old.commented line.now)) }
    {
        if self.commented || line.is_empty() {
            return Ok(());
        }
        if begins_comment(line) {
            self.commented = true;
            return Ok(());
        }
        adding::add_symbol(alloc, &mut self.raw, header, line)
    }

    /// Adds what the next unit says.
    fn add(
        &mut self,
        alloc: Global,
        unset: Unset,
        header: Header,
        unit: &[u8],
    ) -> Result<(), Refused>
        requires small { IsSmall header }
        requires few { self.old.place < 2 ^ 29 }
        requires named { HasNames header self.old }
        ensures right { OnOk result (refusal_in unset header self.old unit.now (section_of header self.old.place) ≡ None) }
        ensures added { OnOk result (self.new ≡ unit_added unset header self.old unit.now (section_of header self.old.place)) }
        ensures err { IfErr result (λ e. Refuses e (refusal_in unset header self.old unit.now (section_of header self.old.place))) }
    {
        match header.section(self.place) {
            Section::Inputs => adding::add_input(&mut self.raw, header.variables, unit),
            Section::Latches => self.add_latch(unset, header, unit),
            Section::Outputs => adding::add_output(&mut self.raw, header.variables, unit),
            Section::Ands => adding::add_and(alloc, &mut self.raw, header.variables, unit),
            Section::FirstDeltas => self.add_first(header, unit),
            Section::SecondDeltas => self.add_second(alloc, header, unit),
            Section::Behind => self.add_behind(alloc, header, line_of(unit)),
        }
    }

    /// Reads a unit after the header.
    fn read_next(
        &mut self,
        alloc: Global,
        unset: Unset,
        header: Header,
        unit: &[u8],
    ) -> Result<(), Refused>
        requires small { IsSmall header }
        requires few { self.old.place < 2 ^ 29 }
        requires room { self.old.start + length unit.now ≤ limit }
        requires named { HasNames header self.old }
        ensures ok { OnOk result (body_read unset header self.old unit.now (section_of header self.old.place) ≡ Ok self.new) }
        ensures err { IfErr result (λ e. ReadsAs e (body_read unset header self.old unit.now (section_of header self.old.place))) }
    {
        self.add(alloc, unset, header, unit)?;
        self.count(unit);
        self.complete(header)?;
        Ok(())
    }

    /// Reads the next unit.
    fn read_unit(&mut self, alloc: Global, unset: Unset, unit: &[u8]) -> Result<(), Refused>
        requires bounded { IsBounded self.old }
        requires room { self.old.start + length unit.now ≤ limit }
        ensures ok { OnOk result (unit_read unset self.old unit.now ≡ Ok self.new) }
        ensures err { IfErr result (λ e. ReadsAs e (unit_read unset self.old unit.now)) }
    {
        match self.header {
            None => self.read_first(alloc, unit),
            Some(header) => self.read_next(alloc, unset, header, unit),
        }
    }

    /// The place of the next unit.
    fn place(&self, unit: &[u8]) -> Place
        requires { self.now.place < 2 ^ 30 }
        ensures { result ≡ place_of self.now unit.now }
    {
        match self.header {
            None => place_in(spelling_of(unit), 0, 0),
            Some(header) => place_in(header.spelling, self.place + 1, self.start),
        }
    }

    /// The kind of the next unit.
    pub(crate) fn kind(&self) -> UnitKind
        requires { IsBounded self.now }
        ensures { result ≡ kind_at self.now.header self.now.place }
    {
        kind_at(self.header, self.place)
    }

    /// Reads the next unit, which has a byte and, where it is a line, an LF at most at its end.
    pub(crate) fn read(&mut self, alloc: Global, unset: Unset, unit: &[u8]) -> Result<(), Stop>
        requires bounded { IsBounded self.old }
        requires some { 0 < length unit.now }
        requires plain { kind_at self.old.header self.old.place ≡ kinds.Line → HasNoFeed (line_of unit.now) }
        requires room { self.old.start + length unit.now ≤ limit }
        ensures bounded { OnOk result (IsBounded self.new) }
        ensures start { OnOk result (self.new.start ≡ self.old.start + length unit.now) }
        ensures ok { OnOk result (shown_read unset self.old unit.now ≡ Ok self.new) }
        ensures err { IfErr result (λ stop. StopsFor stop (shown_read unset self.old unit.now)) }
    {
        let place = self.place(unit);
        match self.read_unit(alloc, unset, unit) {
            Ok(()) => Ok(()),
            Err(Refused::Unit(refusal)) => Err(Stop::Unit(Shown { place, refusal })),
            Err(Refused::NoMemory) => Err(Stop::NoMemory),
        }
    }

    /// The machine, where no section is cut short, after so many bytes.
    pub(crate) fn into_machine(self, bytes: u32) -> Result<RawMachine, AigerRefusal>
        requires { IsBounded self }
        ensures fits { IfOk result (λ raw. Fits (machine_of raw)) }
        ensures ok { IfOk result (λ raw. machine_by self.header self bytes ≡ Ok (machine_of raw)) }
        ensures err { IfErr result (λ refusal. machine_by self.header self bytes ≡ Err refusal) }
    {
        let Some(header) = self.header else {
            return Err(fault_at(Place::Line(1), AigerCause::BadHeader));
        };
        if self.place < header.sections_end() {
            let place = end_place(header.spelling, self.place + 1, bytes);
            return Err(fault_at(place, AigerCause::Truncated));
        }
        Ok(self.raw)
    }
}
