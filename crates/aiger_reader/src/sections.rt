//! The sections of a source.

ghost use Rattle.std.specs.Prelude.{◌≡◌, ◌+◌, ◌-◌, IfSome};
ghost use Rattle.aiger_reader.specs.Sections.{and_units, latches_from, outputs_from, ands_from, sections_end, and_section, section_of, kind_of, kind_at, latch_left, delta_left};
ghost use Rattle.aiger_reader.specs.Bounds.{IsSmall};

use crate::headers::{Header, Spelling};
use crate::units::UnitKind;

/// The section of a unit after the header.
#[derive(Clone, Copy, Debug, PartialEq, Eq)]
pub enum Section {
    Inputs,
    Latches,
    Outputs,
    Ands,
    FirstDeltas,
    SecondDeltas,
    Behind,
}

/// The section of a conjunction's unit, by the number of units of conjunctions before it.
fn and_section(spelling: Spelling, before: u32) -> Section
    ensures { result ≡ and_section spelling before }
{
    match spelling {
        Spelling::Ascii => Section::Ands,
        Spelling::Binary => {
            if before % 2 == 0 {
                Section::FirstDeltas
            } else {
                Section::SecondDeltas
            }
        }
    }
}

fn kind_of(section: Section) -> UnitKind
    ensures { result ≡ kind_of section }
{
    match section {
        Section::FirstDeltas | Section::SecondDeltas => UnitKind::Delta,
        Section::Inputs | Section::Latches | Section::Outputs | Section::Ands | Section::Behind =>
            UnitKind::Line,
    }
}

/// The kind of the unit that stands after so many units behind the header.
pub(crate) fn kind_at(header: Option<Header>, place: u32) -> UnitKind
    requires { IfSome header IsSmall }
    ensures { result ≡ kind_at header place }
{
    match header {
        None => UnitKind::Line,
        Some(header) => kind_of(header.section(place)),
    }
}

impl Header {
    ghost use Rattle.std.specs.Prelude.{◌≡◌, ◌+◌, ◌<◌, ◌^◌};
    ghost use Rattle.aiger_reader.specs.Sections.{and_units, latches_from, outputs_from, ands_from, sections_end, section_of, latch_left, delta_left};
    ghost use Rattle.aiger_reader.specs.Bounds.{IsSmall};

    /// How many units stand between the header and the latches.
    pub(crate) fn latches_from(self) -> u32
        ensures { result ≡ latches_from self }
    {
        match self.spelling {
            Spelling::Ascii => self.inputs,
            Spelling::Binary => 0,
        }
    }

    fn outputs_from(self) -> u32
        requires { IsSmall self }
        ensures { result ≡ outputs_from self }
    {
        self.latches_from() + self.latches
    }

    /// How many units stand between the header and the conjunctions.
    pub(crate) fn ands_from(self) -> u32
        requires { IsSmall self }
        ensures { result ≡ ands_from self }
    {
        self.outputs_from() + self.outputs
    }

    fn and_units(self) -> u32
        requires { IsSmall self }
        ensures { result ≡ and_units self.spelling self.ands }
    {
        match self.spelling {
            Spelling::Ascii => self.ands,
            Spelling::Binary => 2 * self.ands,
        }
    }

    /// How many units the sections have.
    pub(crate) fn sections_end(self) -> u32
        requires { IsSmall self }
        ensures { result ≡ sections_end self }
    {
        self.ands_from() + self.and_units()
    }

    /// The section of the unit that stands after so many units behind the header.
    pub(crate) fn section(self, place: u32) -> Section
        requires { IsSmall self }
        ensures { result ≡ section_of self place }
    {
        if place < self.latches_from() {
            Section::Inputs
        } else if place < self.outputs_from() {
            Section::Latches
        } else if place < self.ands_from() {
            Section::Outputs
        } else if place < self.sections_end() {
            and_section(self.spelling, place - self.ands_from())
        } else {
            Section::Behind
        }
    }

    /// The left side of a latch of the binary spelling.
    pub(crate) fn latch_left(self, latch: u32) -> u32
        requires small { IsSmall self }
        requires few { latch < 2 ^ 30 }
        ensures { result ≡ latch_left self latch }
    {
        2 * (self.inputs + latch + 1)
    }

    /// The left side of the conjunction of a delta that stands after so many units behind the header.
    pub(crate) fn delta_left(self, place: u32) -> u32
        requires small { IsSmall self }
        requires few { place < 2 ^ 30 }
        ensures { result ≡ delta_left self place }
    {
        let gate = place.saturating_sub(self.ands_from()) / 2;
        2 * (self.inputs + self.latches + gate + 1)
    }
}
