//! Where in a source a refusal points to.

/// A place in a source.
#[derive(Clone, Copy, Debug, PartialEq, Eq)]
pub enum Place {
    /// A line, numbered from 1.
    Line(u32),
    /// A byte of a binary AIGER source, numbered from 0: the first of its line or delta.
    Byte(u32),
    /// The source as a whole.
    Whole,
}
