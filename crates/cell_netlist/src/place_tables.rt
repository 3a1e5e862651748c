//! Tables of the places on wires, in 32 bits a wire.

ghost use Rattle.std.specs.Prelude.{◌≡◌, ◌<◌, ℕ, Some, length, replicate, IfOk, slice_get, slice_set};
ghost use Rattle.cell_netlist.specs.Netlists.{most_lines};
ghost use Rattle.cell_netlist.specs.PlaceCodes.{driver_by, driver_line, reader_by, reader_line};

use crate::lines::{Driver, Reader};
use pulse_ids::{CellId, Ident, NoMemory, RailId, Row, WireId};
use std::alloc::Global;
use std::marker::{Model, PhantomData};

/// A place on a wire, which has a code where its line is below 2^27.
pub(crate) trait Place: Copy {
    /// The place of a code.
    ghost place_by: { ℕ → Self };

    /// The line of a place, among the rails or the cells.
    ghost line_of: { Self → ℕ };

    /// The code of the place.
    fn to_code(self) -> u32
        requires { line_of self < most_lines }
        ensures { place_by result ≡ self };

    /// The place of a code.
    fn from_code(code: u32) -> Self
        ensures { result ≡ place_by code };
}

impl Place for Driver {
    ghost place_by = { driver_by };

    ghost line_of = { driver_line };

    fn to_code(self) -> u32 {
        match self {
            Driver::Input(id) => 8 * id.number(),
            Driver::Out(id) => 8 * id.number() + 1,
            Driver::Left(id) => 8 * id.number() + 2,
            Driver::Right(id) => 8 * id.number() + 3,
            Driver::Q(id) => 8 * id.number() + 4,
            Driver::N(id) => 8 * id.number() + 5,
        }
    }

    fn from_code(code: u32) -> Driver {
        let line = code / 8;
        match code % 8 {
            0 => Driver::Input(RailId::new(line)),
            1 => Driver::Out(CellId::new(line)),
            2 => Driver::Left(CellId::new(line)),
            3 => Driver::Right(CellId::new(line)),
            4 => Driver::Q(CellId::new(line)),
            _ => Driver::N(CellId::new(line)),
        }
    }
}

impl Place for Reader {
    ghost place_by = { reader_by };

    ghost line_of = { reader_line };

    fn to_code(self) -> u32 {
        match self {
            Reader::A(id) => 8 * id.number(),
            Reader::B(id) => 8 * id.number() + 1,
            Reader::From(id) => 8 * id.number() + 2,
            Reader::Feed(id) => 8 * id.number() + 3,
            Reader::Output(id) => 8 * id.number() + 4,
        }
    }

    fn from_code(code: u32) -> Reader {
        let line = code / 8;
        match code % 8 {
            0 => Reader::A(CellId::new(line)),
            1 => Reader::B(CellId::new(line)),
            2 => Reader::From(CellId::new(line)),
            3 => Reader::Feed(CellId::new(line)),
            _ => Reader::Output(RailId::new(line)),
        }
    }
}

/// A place for each wire of a netlist, by the numbers of the wires, in 32 bits each.
#[derive(Debug, Drop)]
pub(crate) struct PlaceTable<P: Place> {
    codes: Row<WireId, u32>,
    kind: PhantomData<P>,
}

impl<P: Place> Model for PlaceTable<P> {
    ghost use Rattle.std.specs.Prelude.{List, map};
    ghost use Rattle.std.specs.Coded.{coded_list};

    ghost Value = { List P };

    ghost coded = { coded_list P.code };

    ghost view = { λ table. map P.place_by table.codes };
}

impl<P: Place> PlaceTable<P> {
    /// The same place for so many wires. Its line is below 2^27.
    #[tactic(auto, using(crate::proofs::CodeLemmas::codes_replicate))]
    pub(crate) fn filled(alloc: Global, place: P, wires: u32) -> Result<PlaceTable<P>, NoMemory>
        requires { P.line_of place < most_lines }
        ensures { IfOk result (λ table. table ≡ replicate wires place) }
    {
        Ok(PlaceTable {
            codes: Row::filled(alloc, place.to_code(), wires)?,
            kind: PhantomData,
        })
    }

    /// The place for a wire, which is below the length.
    #[tactic(auto, using(crate::proofs::CodeLemmas::codes_at, crate::proofs::CodeLemmas::codes_length))]
    pub(crate) fn get(&self, wire: WireId) -> P
        requires { wire.number < length self.now }
        ensures { slice_get self.now wire.number ≡ Some result }
    {
        P::from_code(*self.codes.get(wire))
    }

    /// Puts a place, whose line is below 2^27, for a wire, which is below the length. All other wires keep theirs.
    #[tactic(auto, using(crate::proofs::CodeLemmas::codes_set, crate::proofs::CodeLemmas::codes_length))]
    pub(crate) fn set(&mut self, wire: WireId, place: P)
        requires wire { wire.number < length self.old }
        requires line { P.line_of place < most_lines }
        ensures { self.new ≡ slice_set self.old wire.number place }
    {
        self.codes.set(wire, place.to_code());
    }
}
