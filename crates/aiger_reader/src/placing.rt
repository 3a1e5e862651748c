//! The places of units: line numbers from 1, or byte numbers from 0 in the binary spelling.

ghost use Rattle.std.specs.Prelude.{◌≡◌, ◌<◌, ◌^◌};
ghost use Rattle.aiger_reader.specs.Sources.{place_in, end_place};

use crate::headers::Spelling;
use source_machine::Place;

/// The place of a unit that stands after so many units and begins at this byte.
pub(crate) fn place_in(spelling: Spelling, before: u32, start: u32) -> Place
    requires { before < 2 ^ 31 }
    ensures { result ≡ place_in spelling before start }
{
    match spelling {
        Spelling::Ascii => Place::Line(before + 1),
        Spelling::Binary => Place::Byte(start),
    }
}

/// The place of what is missing after so many units and bytes.
pub(crate) fn end_place(spelling: Spelling, units: u32, bytes: u32) -> Place
    requires { units < 2 ^ 31 }
    ensures { result ≡ end_place spelling units bytes }
{
    match spelling {
        Spelling::Ascii => Place::Line(units + 1),
        Spelling::Binary => Place::Byte(bytes),
    }
}
