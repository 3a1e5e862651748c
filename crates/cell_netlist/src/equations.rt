//! The law on runs of a netlist by its equations.

ghost use Rattle.cell_netlist.specs.NetRuns.{RunExists, RunRails, RunsAgree};

/// The rail equations of a sound netlist have a run on any vectors, and only one, but for the bits of the
/// links. In each cycle its bits meet the equations for the state that the cycle before left.
pub fn equation_runs()
    ensures exists { RunExists }
    ensures rails { RunRails }
    ensures agree { RunsAgree }
{}
