//! A netlist's text and then a text of vectors, by the readers of both.

ghost use Rattle.std.specs.Prelude.{◌≡◌, ◌≤◌, ◌++◌, [], ℕ, Bool, List, None, Some, Err, IfErr, OnOk, drop, length};
ghost use Rattle.netlist_reader.specs.declared.refusals.NetRefusal.{NetRefusal};
ghost use Rattle.schedule_replay.specs.declared.refusals.VectorRefusal.{VectorRefusal};
ghost use Rattle.schedule_replay.specs.Readings.{HasAnswered as HasRefused};
ghost use Rattle.simulation_reader.specs.declared.refusals.InputRefusal.{InputRefusal};
ghost use Rattle.simulation_reader.specs.declared.refusals.InputRefusal.TheVariants as refusals;
ghost use Rattle.simulation_reader.specs.InputTexts.{early, judgement};
ghost use Rattle.simulation_reader.specs.Reading.{Answers, HasAnswered, HasAnsweredBy, HasBegun, HasRead, HasTaken, IsAfter, IsBefore, IsNoMemory, IsVerdict, KeepsAnswer, OrMemory};

use crate::refusals::InputRefusal;
use cell_netlist::Netlist;
use netlist_reader::{NetReader, NetRefusal, early_refusals_stand as early_nets_stand};
use schedule_replay::{VectorReader, Vectors};
use std::alloc::Global;

/// A netlist and the vectors for it, with their scripts, where there are some.
#[derive(Debug, Drop)]
pub struct SimulationInput {
    /// The netlist, which need not be sound.
    pub net: Netlist,
    /// The vectors, one bit an input port.
    pub vectors: Vectors,
}

/// A reader of the input of a simulation that comes in pieces of any size: the text of a netlist, and after its `end`
/// line the text of vectors for it, with scripts or without.
#[derive(Debug, Drop)]
pub struct SimulationReader {
    alloc: Global,
    scripted: bool,
    net: NetReader,
    // The reader of what stands after the `end` line, which has come.
    vectors: Option<VectorReader>,
}

impl SimulationReader {
    /// Before the first byte. It takes no memory.
    #[tactic(auto, using(crate::proofs::Feeding::nothing_read))]
    pub fn new(alloc: Global, scripted: bool) -> SimulationReader
        ensures { HasTaken scripted [] result }
    {
        SimulationReader {
            alloc,
            scripted,
            net: NetReader::new(alloc),
            vectors: None,
        }
    }

    /// The reader of vectors for the netlist that was read.
    fn begin(&self) -> VectorReader
        requires { self.now.net.stopped ≡ None }
        ensures { (text : List ℕ) → HasBegun text self.now.net → HasRead self.now.scripted text [] result }
    {
        let inputs = self.net.inputs().unwrap_or(0);
        VectorReader::new(self.alloc, inputs, self.scripted, self.net.lines())
    }

    /// Begins the vectors of the netlist that was read, with their first bytes.
    fn start(&mut self, rest: &[u8]) -> Result<(), InputRefusal>
        requires { self.old.net.stopped ≡ None }
        ensures read { OnOk result ((text : List ℕ) → HasBegun text self.old.net → HasTaken self.old.scripted (text ++ rest.now) self.new) }
        ensures early { (text : List ℕ) → HasBegun text self.old.net → Answers result (early self.old.scripted (text ++ rest.now)) }
        ensures scripted { self.new.scripted ≡ self.old.scripted }
        ensures kept { KeepsAnswer result self.new }
    {
        let mut vectors = self.begin();
        let answer = vectors.feed(rest);
        self.vectors = Some(vectors);
        match answer {
            Err(refusal) => Err(InputRefusal::Vectors(refusal)),
            Ok(()) => Ok(()),
        }
    }

    /// Takes a piece, where the `end` line has not come before.
    fn feed_net(&mut self, piece: &[u8]) -> Result<(), InputRefusal>
        requires { self.old.vectors ≡ None }
        ensures read { OnOk result ((text : List ℕ) → IsBefore text self.old.net → HasTaken self.old.scripted (text ++ piece.now) self.new) }
        ensures early { (text : List ℕ) → IsBefore text self.old.net → Answers result (early self.old.scripted (text ++ piece.now)) }
        ensures scripted { self.new.scripted ≡ self.old.scripted }
        ensures kept { KeepsAnswer result self.new }
        ensures again { (refusal : NetRefusal) → self.old.net.stopped ≡ Some refusal → result ≡ Err (refusals.Net refusal) }
    {
        early_nets_stand();
        match self.net.feed(piece) {
            Err(refusal) => Err(InputRefusal::Net(refusal)),
            Ok(fed) => {
                if fed.ended {
                    self.start(behind(piece, fed.used))
                } else {
                    Ok(())
                }
            }
        }
    }

    /// Takes the next piece, and answers the first refusal that the bytes so far show: that of the netlist's text, or
    /// of what stands after it. After a refusal every further call answers the same refusal. It takes linear time.
    pub fn feed(&mut self, piece: &[u8]) -> Result<(), InputRefusal>
        ensures read { OnOk result ((text : List ℕ) → HasTaken self.old.scripted text self.old → HasTaken self.old.scripted (text ++ piece.now) self.new) }
        ensures early { (text : List ℕ) → HasTaken self.old.scripted text self.old → Answers result (early self.old.scripted (text ++ piece.now)) }
        ensures scripted { self.new.scripted ≡ self.old.scripted }
        ensures kept { KeepsAnswer result self.new }
        ensures again { (refusal : InputRefusal) → HasAnswered self.old refusal → result ≡ Err refusal }
    {
        match &mut self.vectors {
            None => self.feed_net(piece),
            Some(vectors) => match vectors.feed(piece) {
                Err(refusal) => Err(InputRefusal::Vectors(refusal)),
                Ok(()) => Ok(()),
            },
        }
    }

    /// The netlist and its vectors, or why there are none: what the bytes show early, or `Truncated`, of the netlist's
    /// text or of the vectors'. It takes no memory: want of it comes only where it was answered before.
    pub fn finish(self) -> Result<SimulationInput, InputRefusal>
        ensures verdict { (text : List ℕ) → HasTaken self.scripted text self → IsVerdict result (judgement self.scripted text) }
        ensures again { (refusal : InputRefusal) → HasAnswered self refusal → result ≡ Err refusal }
        ensures no_memory { (text : List ℕ) → HasTaken self.scripted text self → IfErr result (λ refusal. IsNoMemory refusal → HasAnswered self refusal) }
    {
        let SimulationReader { net, vectors, .. } = self;
        match vectors {
            None => Err(unended(net)),
            Some(vectors) => joined(net, vectors),
        }
    }
}

/// What stands behind the first bytes of a piece.
#[tactic(auto, using(crate::proofs::Feeding::behind_is))]
fn behind(piece: &[u8], used: usize) -> &[u8]
    requires { used ≤ length piece.now }
    ensures { result.now ≡ drop used piece.now }
{
    &piece[used..]
}

/// Why the text of a netlist with no `end` line is refused.
#[tactic(auto, using(crate::proofs::Feeding::net_refused))]
fn unended(net: NetReader) -> InputRefusal
    ensures verdict { (scripted : Bool) (text : List ℕ) → IsBefore text net → OrMemory result (judgement scripted text ≡ Err result) }
    ensures again { (refusal : NetRefusal) → net.stopped ≡ Some refusal → result ≡ refusals.Net refusal }
    ensures no_memory { IsNoMemory result → HasAnsweredBy None net result }
{
    match net.finish() {
        Err(refusal) => return InputRefusal::Net(refusal),
        Ok(_) => {}
    }
    InputRefusal::Net(NetRefusal::Truncated)
}

/// A netlist with its vectors.
fn joined(net: NetReader, vectors: VectorReader) -> Result<SimulationInput, InputRefusal>
    ensures verdict { (scripted : Bool) (text : List ℕ) → IsAfter scripted text net vectors → IsVerdict result (judgement scripted text) }
    ensures again { (refusal : VectorRefusal) → HasRefused vectors refusal → result ≡ Err (refusals.Vectors refusal) }
    ensures no_memory { (scripted : Bool) (text : List ℕ) → IsAfter scripted text net vectors → IfErr result (λ refusal. IsNoMemory refusal → HasAnsweredBy (Some vectors) net refusal) }
{
    match vectors.finish() {
        Err(refusal) => Err(InputRefusal::Vectors(refusal)),
        Ok(vectors) => match net.finish() {
            Err(refusal) => Err(InputRefusal::Net(refusal)),
            Ok(net) => Ok(SimulationInput { net, vectors }),
        },
    }
}
