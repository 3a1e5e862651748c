//! A machine as its source gives it.

use crate::covers::Cover;
use pulse_ids::{Lit, Name, NetId};

/// A net as a sum of products. Its value is `on` where some cube has all its literals 1, and the
/// opposite of `on` elsewhere. A cube without literals has all of them 1. (A `.names` block of BLIF,
/// whose cubes all give one output bit, or a conjunction of AIGER.)
#[derive(Debug, Drop)]
pub struct Equation {
    /// The net that the equation drives.
    pub net: NetId,
    /// The value where a cube is met.
    pub on: bool,
    /// The cubes.
    pub rows: Vec<Cover>,
}

/// A register of one bit. (A `.latch` line of BLIF or a latch of AIGER.)
#[derive(Clone, Copy, Debug, PartialEq, Eq)]
pub struct Latch {
    /// The net that holds the state.
    pub out: NetId,
    /// The first state.
    pub init: bool,
    /// The literal whose value is the next state.
    pub next: Lit,
}

/// A machine as read. Its nets are numbered from 1 to `nets`, and net 0 is the constant false.
#[derive(Debug, Drop)]
pub struct RawMachine {
    /// The greatest net number.
    pub nets: u32,
    /// The net of each input port.
    pub inputs: Vec<NetId>,
    /// The latches.
    pub latches: Vec<Latch>,
    /// The equations, in any order.
    pub equations: Vec<Equation>,
    /// The literal of each output port.
    pub outputs: Vec<Lit>,
    /// The name of each input port, where it has one.
    pub input_names: Vec<Option<Name>>,
    /// The name of each output port, where it has one.
    pub output_names: Vec<Option<Name>>,
}
