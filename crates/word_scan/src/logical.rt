//! The logical lines of BLIF, from physical lines.

ghost use Rattle.std.specs.Prelude.{◌≡◌, [], true, false, IfOk, OnOk, OnErr, IfSome, IfNone};
ghost use Rattle.word_scan.specs.Logical.{is_strange, has_strange, part_of, continues, with_line};

use crate::parts::{is_white, part};
use pulse_ids::NoMemory;
use std::alloc::Global;
use std::marker::Model;

/// The present logical line of BLIF: the physical lines that `\` joins, without their comments and the white space at
/// their ends, with a space between them.
#[derive(Debug, Drop)]
pub struct Logical {
    text: Vec<u8>,
    whole: bool,
    first: u32,
}

impl Model for Logical {
    ghost use Rattle.word_scan.specs.Logical.{PlainLogical};

    ghost Value = { PlainLogical };

    ghost view = { λ logical. record { text = logical.text.items; whole = logical.whole; first = logical.first } };
}

/// Whether the byte is neither white space nor part of a name.
fn is_strange(byte: u8) -> bool
    ensures { result ≡ is_strange byte }
{
    if is_white(byte) {
        return false;
    }
    byte < 33 || byte == 127 || byte == b'#'
}

/// Whether a byte of the text is neither white space nor part of a name. The bytes of names are those above 32 but for
/// 127 and `#`. It takes no memory.
pub fn has_strange(text: &[u8]) -> bool
    ensures { result ≡ has_strange text.now }
{
    text.iter().any(|b| is_strange(*b))
}

impl Logical {
    /// Before the first line. It takes no memory.
    pub fn new(alloc: Global) -> Logical
        ensures { result ≡ record { text = []; whole = true; first = 1 } }
    {
        Logical {
            text: Vec::new(alloc),
            whole: true,
            first: 1,
        }
    }

    /// Adds the physical line of this number, and answers whether the logical line is complete. After a complete one it
    /// begins the next. Where memory is refused nothing changes.
    pub fn take(&mut self, line: &[u8], number: u32) -> Result<bool, NoMemory>
        ensures ok { OnOk result (self.new ≡ with_line self.old number line.now) }
        ensures whole { IfOk result (λ whole. whole ≡ self.new.whole) }
        ensures err { OnErr result (self.new ≡ self.old) }
    {
        let (part, continues) = part(line);
        self.text.reserve(part.len() + 1)?;
        if self.whole {
            self.text.clear();
            self.first = number;
        } else {
            self.text.push_reserved(b' ');
        }
        self.text.extend_from_slice(part)?;
        self.whole = !continues;
        Ok(!continues)
    }

    /// The text of a logical line that is this physical line alone, where it lies: None exactly where a logical line has
    /// begun, or the next line continues this one.
    pub fn alone<'a>(&self, line: &'a [u8]) -> Option<&'a [u8]>
        ensures text { IfSome result (λ text. text.now ≡ part_of line.now) }
        ensures whole { IfSome result (λ _. self.now.whole ≡ true) }
        ensures ends { IfSome result (λ _. continues line.now ≡ false) }
        ensures none { IfNone result (self.now.whole ≡ true → continues line.now ≡ true) }
    {
        if !self.whole {
            return None;
        }
        let (part, continues) = part(line);
        if continues {
            return None;
        }
        Some(part)
    }

    /// Its text: the parts of its physical lines with a space between them.
    pub fn text(&self) -> &[u8]
        ensures { result.now ≡ self.now.text }
    {
        self.text.as_slice()
    }

    /// Whether it is complete, as before the first line.
    pub fn is_whole(&self) -> bool
        ensures { result ≡ self.now.whole }
    {
        self.whole
    }

    /// The number of its first physical line.
    pub fn first(&self) -> u32
        ensures { result ≡ self.now.first }
    {
        self.first
    }

    /// Whether it holds a byte that is neither white space nor part of a name.
    pub fn strange(&self) -> bool
        ensures { result ≡ has_strange self.now.text }
    {
        has_strange(self.text.as_slice())
    }
}
