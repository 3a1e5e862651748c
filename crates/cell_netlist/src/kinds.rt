//! The small kinds that netlists and the world of pulses speak of.

/// A gate of two ports.
#[derive(Clone, Copy, Debug, PartialEq, Eq, Hash)]
pub enum Gate {
    /// Last arrival: it emits when both ports have got their pulse.
    La,
    /// First arrival: it emits at the first pulse and absorbs the second.
    Fa,
}

/// What a gate holds between pulses.
#[derive(Clone, Copy, Debug, PartialEq, Eq, Hash)]
pub enum Held {
    /// No port, or both ports, got a pulse.
    Rest,
    /// Port a alone got a pulse.
    HasA,
    /// Port b alone got a pulse.
    HasB,
}

/// What a cell keeps between pulses: an LA or FA what it holds, a DROC its bit, and a splitter nothing. What a
/// cell does not keep is `Rest` and 0.
#[derive(Clone, Copy, Debug, PartialEq, Eq, Hash)]
pub struct CellState {
    /// What an LA or FA holds.
    pub held: Held,
    /// The bit of a DROC.
    pub bit: bool,
}

/// A port of a gate.
#[derive(Clone, Copy, Debug, PartialEq, Eq, Hash)]
pub enum Port {
    A,
    B,
}

/// What a DROC cell is there for.
#[derive(Clone, Copy, Debug, PartialEq, Eq, Hash)]
pub enum Role {
    /// The first of a latch pair: it takes the positive rail of the next state.
    Front,
    /// The second of a latch pair: it drives the latch's rails.
    Back,
    /// A constant, which feeds itself.
    Const,
}

/// A phase of a cycle. Excite comes first.
#[derive(Clone, Copy, Debug, PartialEq, Eq, Hash)]
pub enum Phase {
    Excite,
    Relax,
}

/// A version of netlists.
#[derive(Clone, Copy, Debug, PartialEq, Eq, Hash)]
pub enum Version {
    /// A netlist without state lines.
    One,
    /// A netlist whose state lines name the cells that keep the latches.
    Two,
}

/// Which rails of each output port are asked for.
#[derive(Clone, Copy, Debug, PartialEq, Eq, Hash)]
pub enum Ask {
    /// The positive rail.
    Pos,
    /// The negative rail.
    Neg,
    /// The positive and then the negative rail.
    Both,
}
