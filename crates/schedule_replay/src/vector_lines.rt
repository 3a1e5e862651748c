//! The lines of a text of vectors: what may stand where, and what each says.

ghost use Rattle.std.specs.Prelude.{◌≡◌, ◌∷◌, [], None, IfOk, IfSome, IfNone, codes};
ghost use Rattle.std.specs.Str.{bytes_eq};
ghost use Rattle.schedule_replay.specs.AddedItems.{Adds, AddsItem, AddsList};
ghost use Rattle.schedule_replay.specs.VectorLines.{bit_of, bits_of, wire_of, wires_of, spaced, vector_of, script_of, script_in};

use flat_lists::FlatLists;
use pulse_ids::{Ident, NoMemory, WireId};
use word_scan::{part_at, plain_decimal};

/// The form of a text of vectors: how many bits a vector has, whether each vector has scripts, and how many lines stand
/// before the text.
#[derive(Clone, Copy, Debug, PartialEq, Eq)]
pub struct Form {
    pub(crate) inputs: u32,
    pub(crate) scripted: bool,
    pub(crate) before: u32,
}

/// What the next line of a text has to be.
#[derive(Clone, Copy, Debug, PartialEq, Eq)]
pub enum Due {
    /// The line `vectors`.
    Head,
    /// A vector or `stop`.
    Vector,
    /// The script of a vector's excite.
    Excite,
    /// The script of a vector's relax.
    Relax,
    /// No line: `stop` came before.
    Nothing,
}

/// The bit of a digit.
fn bit_of(byte: u8) -> Option<bool>
    ensures { result ≡ bit_of byte }
{
    match byte {
        b'0' => Some(false),
        b'1' => Some(true),
        _ => None,
    }
}

/// The wire of a number.
fn wire_of(word: &[u8]) -> Option<WireId>
    ensures { result ≡ wire_of word.now }
{
    Some(WireId::new(plain_decimal(word)?))
}

/// The digits of a line of a vector of this width.
fn digits_of(inputs: u32, line: &[u8]) -> Option<&[u8]>
    ensures found { IfSome result (λ digits. vector_of inputs line.now ≡ bits_of digits.now) }
    ensures none { IfNone result (vector_of inputs line.now ≡ None) }
{
    if line.len() == inputs as usize + 1 && line[0] == b'v' {
        Some(&line[1..])
    } else {
        None
    }
}

/// Adds an item to the list that has begun, where there is one, and answers whether there is.
fn push_if<T: Drop>(lists: &mut FlatLists<T>, item: Option<T>) -> Result<bool, NoMemory>
    ensures { IfOk result (λ added. AddsItem added item lists.old lists.new) }
{
    match item {
        Some(item) => {
            lists.push(item)?;
            Ok(true)
        }
        None => Ok(false),
    }
}

/// Adds the bits of digits, and answers whether all are digits.
fn push_bits(bits: &mut FlatLists<bool>, digits: &[u8]) -> Result<bool, NoMemory>
    ensures { IfOk result (λ added. Adds added (bits_of digits.now) bits.old bits.new) }
{
    for digit in digits {
        if !push_if(bits, bit_of(*digit))? {
            return Ok(false);
        }
    }
    Ok(true)
}

/// Adds the wires of numbers with single spaces between them, and answers whether all are numbers.
fn push_wires(wires: &mut FlatLists<WireId>, numbers: &[u8]) -> Result<bool, NoMemory>
    ensures { IfOk result (λ added. Adds added (wires_of numbers.now) wires.old wires.new) }
{
    let mut rest = numbers;
    while let Some((number, after)) = part_at(rest, b' ') {
        if !push_if(wires, wire_of(number))? {
            return Ok(false);
        }
        rest = after;
    }
    push_if(wires, wire_of(rest))
}

fn is_deliver(word: &[u8]) -> bool
    ensures { result ≡ bytes_eq word.now (codes "deliver") }
{
    word == b"deliver".as_slice()
}

/// Adds the wires of a script by its first word and the numbers after it, and answers whether it is one.
fn push_numbers(
    wires: &mut FlatLists<WireId>,
    word: &[u8],
    numbers: &[u8],
) -> Result<bool, NoMemory>
    ensures { IfOk result (λ added. Adds added (script_of (word.now ∷ spaced numbers.now)) wires.old wires.new) }
{
    if is_deliver(word) {
        push_wires(wires, numbers)
    } else {
        Ok(false)
    }
}

/// Adds the wires of a script, and answers whether the line is one.
fn push_script(wires: &mut FlatLists<WireId>, line: &[u8]) -> Result<bool, NoMemory>
    ensures { IfOk result (λ added. Adds added (script_in line.now) wires.old wires.new) }
{
    match part_at(line, b' ') {
        Some((word, numbers)) => push_numbers(wires, word, numbers),
        None => Ok(is_deliver(line)),
    }
}

/// Keeps the script that a line is, and answers whether it is one.
pub(crate) fn keep_script(scripts: &mut FlatLists<WireId>, line: &[u8]) -> Result<bool, NoMemory>
    requires { scripts.old.begun ≡ [] }
    ensures { IfOk result (λ kept. AddsList kept (script_in line.now) scripts.old scripts.new) }
{
    if !push_script(scripts, line)? {
        return Ok(false);
    }
    scripts.end()?;
    Ok(true)
}

/// Keeps the vector of this width that a line is, and answers whether it is one.
pub(crate) fn keep_vector(
    vectors: &mut FlatLists<bool>,
    inputs: u32,
    line: &[u8],
) -> Result<bool, NoMemory>
    requires { vectors.old.begun ≡ [] }
    ensures { IfOk result (λ kept. AddsList kept (vector_of inputs line.now) vectors.old vectors.new) }
{
    match digits_of(inputs, line) {
        None => Ok(false),
        Some(digits) => keep_bits(vectors, digits),
    }
}

/// Keeps the vector of digits, and answers whether all are digits.
fn keep_bits(vectors: &mut FlatLists<bool>, digits: &[u8]) -> Result<bool, NoMemory>
    requires { vectors.old.begun ≡ [] }
    ensures { IfOk result (λ kept. AddsList kept (bits_of digits.now) vectors.old vectors.new) }
{
    if !push_bits(vectors, digits)? {
        return Ok(false);
    }
    vectors.end()?;
    Ok(true)
}
