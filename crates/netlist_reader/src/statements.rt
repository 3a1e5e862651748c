//! What a line says.

ghost use Rattle.std.specs.Prelude.{◌≡◌};
ghost use Rattle.netlist_reader.specs.Statements.{ports_in, rail_in, state_in, named_in, three_in, droc_in, cell_in, statement_by, statement_in};

use crate::words::{bit_of, output_in, parted, role_of, sign_of, wire_in};
use cell_netlist::{Cell, Rail, StateLine, Version};
use pulse_ids::{CellId, Ident, WireId};
use word_scan::plain_decimal;

/// What a line says. The name in a line of a name stands in the line itself.
#[derive(Clone, Copy, Debug, PartialEq, Eq)]
pub enum Statement {
    /// The version of the text.
    Version(Version),
    /// The numbers of input and output ports.
    Ports(u32, u32),
    /// An input rail.
    Input(Rail),
    /// A cell.
    OneCell(Cell),
    /// An output rail.
    Output(Rail),
    /// A state line.
    State(StateLine),
    /// The input port that is named.
    InputName(u32),
    /// The output port that is named.
    OutputName(u32),
    /// The end of the text.
    End,
}

fn ports_in(line: &[u8]) -> Option<Statement>
    ensures { result ≡ ports_in line.now }
{
    let (inputs, outputs) = parted(line)?;
    let inputs = plain_decimal(inputs)?;
    let outputs = plain_decimal(outputs)?;
    Some(Statement::Ports(inputs, outputs))
}

fn rail_in(line: &[u8]) -> Option<Rail>
    ensures { result ≡ rail_in line.now }
{
    let (port_word, rest) = parted(line)?;
    let (sign_word, wire_word) = parted(rest)?;
    let port = plain_decimal(port_word)?;
    let sign = sign_of(sign_word)?;
    let wire = wire_in(wire_word)?;
    Some(Rail { port, sign, wire })
}

fn state_in(line: &[u8]) -> Option<StateLine>
    ensures { result ≡ state_in line.now }
{
    let (latch, cell) = parted(line)?;
    let latch = plain_decimal(latch)?;
    let cell = plain_decimal(cell)?;
    Some(StateLine {
        latch,
        cell: CellId::new(cell),
    })
}

fn named_in(line: &[u8]) -> Option<u32>
    ensures { result ≡ named_in line.now }
{
    let (port, name) = parted(line)?;
    if name == b"".as_slice() {
        return None;
    }
    plain_decimal(port)
}

fn three_in(line: &[u8]) -> Option<(WireId, WireId, WireId)>
    ensures { result ≡ three_in line.now }
{
    let (a_word, rest) = parted(line)?;
    let (b_word, out_word) = parted(rest)?;
    let a = wire_in(a_word)?;
    let b = wire_in(b_word)?;
    let out = wire_in(out_word)?;
    Some((a, b, out))
}

fn droc_in(line: &[u8]) -> Option<Cell>
    ensures { result ≡ droc_in line.now }
{
    let (role_word, rest) = parted(line)?;
    let (bit_word, rest) = parted(rest)?;
    let (feed_word, rest) = parted(rest)?;
    let (q_word, n_word) = parted(rest)?;
    let role = role_of(role_word)?;
    let preload = bit_of(bit_word)?;
    let feed = wire_in(feed_word)?;
    let q = output_in(q_word)?;
    let n = output_in(n_word)?;
    Some(Cell::Droc {
        role,
        preload,
        feed,
        q,
        n,
    })
}

fn cell_in(word: &[u8], rest: &[u8]) -> Option<Cell>
    ensures { result ≡ cell_in word.now rest.now }
{
    if word == b"la".as_slice() {
        let (a, b, out) = three_in(rest)?;
        return Some(Cell::La { a, b, out });
    }
    if word == b"fa".as_slice() {
        let (a, b, out) = three_in(rest)?;
        return Some(Cell::Fa { a, b, out });
    }
    if word == b"split".as_slice() {
        let (from, left, right) = three_in(rest)?;
        return Some(Cell::Split { from, left, right });
    }
    if word == b"droc".as_slice() {
        return droc_in(rest);
    }
    None
}

fn statement_by(word: &[u8], rest: &[u8]) -> Option<Statement>
    ensures { result ≡ statement_by word.now rest.now }
{
    if word == b"ports".as_slice() {
        return ports_in(rest);
    }
    if word == b"input".as_slice() {
        return Some(Statement::Input(rail_in(rest)?));
    }
    if word == b"output".as_slice() {
        return Some(Statement::Output(rail_in(rest)?));
    }
    if word == b"state".as_slice() {
        return Some(Statement::State(state_in(rest)?));
    }
    if word == b"iname".as_slice() {
        return Some(Statement::InputName(named_in(rest)?));
    }
    if word == b"oname".as_slice() {
        return Some(Statement::OutputName(named_in(rest)?));
    }
    Some(Statement::OneCell(cell_in(word, rest)?))
}

/// What a line says. None exactly where it has no form of the text.
pub(crate) fn statement_in(line: &[u8]) -> Option<Statement>
    ensures { result ≡ statement_in line.now }
{
    if line == b"xsfq 1".as_slice() {
        return Some(Statement::Version(Version::One));
    }
    if line == b"xsfq 2".as_slice() {
        return Some(Statement::Version(Version::Two));
    }
    if line == b"end".as_slice() {
        return Some(Statement::End);
    }
    let (word, rest) = parted(line)?;
    statement_by(word, rest)
}
