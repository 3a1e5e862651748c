//! How a call of the compiler ended, and its exit code.

ghost use Rattle.std.specs.Prelude.{◌≡◌};
ghost use Rattle.run_outcomes.specs.Outcomes.{aiger_outcome, blif_outcome, code_of, net_outcome, input_outcome, vector_outcome};
ghost use Rattle.run_outcomes.specs.declared.outcomes.Outcome.TheVariants as outcomes;

use aiger_reader::{AigerFault, AigerRefusal};
use blif_reader::{BlifFault, BlifRefusal};
use cell_netlist::{Phase, Unsound};
use netlist_reader::NetRefusal;
use pulse_ids::{NoMemory, Quantity};
use schedule_replay::{ScriptFault, VectorRefusal};
use simulation_reader::InputRefusal;

/// How a call of the compiler ended.
#[derive(Debug, Drop)]
pub enum Outcome {
    /// The command's whole text was written and flushed, and the input was read to its end.
    Done,
    /// The words order nothing.
    Usage,
    /// The source is BLIF, and something is wrong with it.
    Blif(BlifFault),
    /// The source is AIGER, and something is wrong with it.
    Aiger(AigerFault),
    /// The text is no netlist's, or something stands after it.
    NetText(NetRefusal),
    /// What stands after the netlist is no text of vectors for it.
    Vector(VectorRefusal),
    /// The input has too much of something.
    Limit(Quantity),
    /// The netlist is unsound.
    Unsound(Unsound),
    /// A script doesn't fit. The text of the cycles before was written and flushed, and the input was read to its end.
    Script {
        /// The cycle of the script, from 0.
        cycle: u32,
        /// Its phase.
        phase: Phase,
        /// What is wrong.
        fault: ScriptFault,
    },
    /// A read of the input failed.
    ReadFault,
    /// A write or the flush of the output failed.
    WriteFault,
    /// Memory was refused, before the output took a byte.
    NoMemory,
}

impl Outcome {
    /// The exit code of the program.
    pub fn code(&self) -> u8
        ensures { result ≡ code_of self.now }
    {
        match self {
            Outcome::Done => 0,
            Outcome::Usage => 2,
            Outcome::Blif(_) => 3,
            Outcome::Aiger(_) => 3,
            Outcome::NetText(_) => 3,
            Outcome::Vector(_) => 3,
            Outcome::Limit(_) => 4,
            Outcome::Unsound(_) => 5,
            Outcome::Script { .. } => 6,
            Outcome::ReadFault => 7,
            Outcome::WriteFault => 8,
            Outcome::NoMemory => 9,
        }
    }
}

impl From<NoMemory> for Outcome {
    ghost from_gives = { λ _ outcome. outcome ≡ outcomes.NoMemory };

    fn from(_: NoMemory) -> Self {
        Outcome::NoMemory
    }
}

impl From<AigerRefusal> for Outcome {
    ghost from_gives = { λ refusal outcome. outcome ≡ aiger_outcome refusal };

    fn from(refusal: AigerRefusal) -> Self {
        match refusal {
            AigerRefusal::Fault(fault) => Outcome::Aiger(fault),
            AigerRefusal::Limit(quantity) => Outcome::Limit(quantity),
            AigerRefusal::NoMemory => Outcome::NoMemory,
        }
    }
}

impl From<BlifRefusal> for Outcome {
    ghost from_gives = { λ refusal outcome. outcome ≡ blif_outcome refusal };

    fn from(refusal: BlifRefusal) -> Self {
        match refusal {
            BlifRefusal::Fault(fault) => Outcome::Blif(fault),
            BlifRefusal::Limit(quantity) => Outcome::Limit(quantity),
            BlifRefusal::NoMemory => Outcome::NoMemory,
        }
    }
}

impl From<NetRefusal> for Outcome {
    ghost from_gives = { λ refusal outcome. outcome ≡ net_outcome refusal };

    fn from(refusal: NetRefusal) -> Self {
        match refusal {
            NetRefusal::BadLine(_) | NetRefusal::Truncated => Outcome::NetText(refusal),
            NetRefusal::Limit(quantity) => Outcome::Limit(quantity),
            NetRefusal::NoMemory => Outcome::NoMemory,
        }
    }
}

impl From<VectorRefusal> for Outcome {
    ghost from_gives = { λ refusal outcome. outcome ≡ vector_outcome refusal };

    fn from(refusal: VectorRefusal) -> Self {
        match refusal {
            VectorRefusal::BadLine(_) | VectorRefusal::Truncated => Outcome::Vector(refusal),
            VectorRefusal::Limit(quantity) => Outcome::Limit(quantity),
            VectorRefusal::NoMemory => Outcome::NoMemory,
        }
    }
}

impl From<InputRefusal> for Outcome {
    ghost from_gives = { λ refusal outcome. outcome ≡ input_outcome refusal };

    fn from(refusal: InputRefusal) -> Self {
        match refusal {
            InputRefusal::Net(refusal) => Outcome::from(refusal),
            InputRefusal::Vectors(refusal) => Outcome::from(refusal),
        }
    }
}
