//! A case: what a run is given, and what is wanted of it.

use std::alloc::Global;

/// The numbers of the calls of ports that fail, from 0.
#[derive(Drop)]
pub(crate) struct Failing {
    /// Reads of the input.
    pub(crate) reads: Vec<u64>,
    /// Writes to the output.
    pub(crate) writes: Vec<u64>,
    /// Flushes of the output.
    pub(crate) flushes: Vec<u64>,
    /// Writes to the notes.
    pub(crate) notes: Vec<u64>,
}

impl Failing {
    /// None fails.
    pub(crate) fn none(alloc: Global) -> Self {
        Failing {
            reads: Vec::new(alloc),
            writes: Vec::new(alloc),
            flushes: Vec::new(alloc),
            notes: Vec::new(alloc),
        }
    }
}

/// A kind of calls of ports.
#[derive(Clone, Copy, PartialEq, Eq)]
pub(crate) enum Call {
    Read,
    Write,
    Flush,
    Note,
}

/// Each call of a kind fails in its turn.
#[derive(Clone, Copy)]
pub(crate) struct Turns {
    pub(crate) call: Call,
    /// How many calls are made, where it is told. There is at least one.
    pub(crate) count: Option<u64>,
}

/// What is wanted of a run.
#[derive(Drop)]
pub(crate) struct Wanted {
    /// The exit code.
    pub(crate) code: u8,
    /// The output, or its first bytes where its size, its digest or its end is told.
    pub(crate) output: Vec<u8>,
    /// The number of bytes of the output, where it is told.
    pub(crate) size: Option<usize>,
    /// The SHA-256 digest of the output, where it is told.
    pub(crate) digest: Option<[u8; 32]>,
    /// The last bytes of the output, where they are told.
    pub(crate) end: Vec<u8>,
    /// The notes.
    pub(crate) note: Vec<u8>,
    /// How many bytes of the input are not read, where it is told.
    pub(crate) left: Option<usize>,
}

/// A case.
#[derive(Drop)]
pub(crate) struct Case {
    pub(crate) name: String,
    /// The words of command lines: each is a run of its own.
    pub(crate) commands: Vec<Vec<String>>,
    /// Where the input begins with the output of the case before: how many of its last lines are left out.
    pub(crate) piped: Option<usize>,
    /// The input, or what follows that output.
    pub(crate) input: Vec<u8>,
    /// How many bytes a port moves at most in a call: each number is a run of its own.
    pub(crate) pieces: Vec<u64>,
    pub(crate) failing: Failing,
    pub(crate) turns: Vec<Turns>,
    pub(crate) wanted: Wanted,
}

impl Case {
    /// A case of this name that is given nothing, and of which an empty output and exit code 0 are wanted.
    pub(crate) fn named(alloc: Global, name: String) -> Self {
        Case {
            name,
            commands: Vec::new(alloc),
            piped: None,
            input: Vec::new(alloc),
            pieces: Vec::new(alloc),
            failing: Failing::none(alloc),
            turns: Vec::new(alloc),
            wanted: Wanted {
                code: 0,
                output: Vec::new(alloc),
                size: None,
                digest: None,
                end: Vec::new(alloc),
                note: Vec::new(alloc),
                left: None,
            },
        }
    }
}
