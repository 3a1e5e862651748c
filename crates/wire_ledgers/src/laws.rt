//! Laws on ledgers. Each stands on a function that does nothing.

ghost use Rattle.wire_ledgers.specs.Laws.{LedgersBegin, DebtsAreSettled, InputsOpen, OutputsClose, CellsMoveOn, DrocsOpen, FeedsTakeOver, ClosedLedgersAreWired, LedgersAreGrounded, ClosedLedgersAreSound};

/// What each kind of line does to the open wires and the debts of a netlist.
pub fn ledger_lines()
    ensures begin { LedgersBegin }
    ensures settled { DebtsAreSettled }
    ensures inputs { InputsOpen }
    ensures cells { CellsMoveOn }
    ensures drocs { DrocsOpen }
    ensures feeds { FeedsTakeOver }
    ensures outputs { OutputsClose }
{}

/// A netlist with nothing open and no debts has one driver and one reader for each wire, every wire of it is
/// grounded, and with right ports and roles it is sound.
pub fn ledger_ends()
    ensures wired { ClosedLedgersAreWired }
    ensures grounded { LedgersAreGrounded }
    ensures sound { ClosedLedgersAreSound }
{}
