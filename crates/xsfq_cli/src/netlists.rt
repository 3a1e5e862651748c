//! Inputs that hold one netlist's text.

ghost use Rattle.std.specs.Prelude.{◌≡◌, [], length, nat_lt};
ghost use Rattle.netlist_reader.specs.Readings.{IsReading};
ghost use Rattle.xsfq_cli.specs.Answering.{IsOrNoMemory};
ghost use Rattle.xsfq_cli.specs.Checked.{HasCheck, IsSoundOr};
ghost use Rattle.xsfq_cli.specs.Halves.{Reads};
ghost use Rattle.xsfq_cli.specs.NetTexts.{net_shown};
ghost use Rattle.xsfq_cli.specs.Table.{input_of};

use crate::consuming::{Consumer, read_whole};
use byte_ports::Source;
use cell_netlist::{Netlist, SoundNet};
use netlist_reader::{NetReader, NetRefusal, early_refusals_stand};
use rail_checker::{Refused, check};
use run_outcomes::Outcome;
use std::alloc::Global;

/// A reader of one netlist's text, after which nothing stands.
#[derive(Debug, Drop)]
pub(crate) struct NetTextReader {
    reader: NetReader,
}

impl NetTextReader {
    /// Before the first byte. It takes no memory.
    pub(crate) fn new(alloc: Global) -> NetTextReader
        ensures { IsReading [] result.reader }
    {
        NetTextReader {
            reader: NetReader::new(alloc),
        }
    }
}

/// Whether a piece has bytes after those that were taken.
fn leaves_bytes(used: usize, piece: &[u8]) -> bool
    ensures { result ≡ nat_lt used (length piece.now) }
{
    used < piece.len()
}

impl Consumer for NetTextReader {
    ghost use Rattle.pulse_ids.specs.Quantities.{greatest_of};
    ghost use Rattle.pulse_ids.specs.declared.quantities.Quantity.TheVariants.{NetBytes};
    ghost use Rattle.netlist_reader.specs.Readings.{IsReading};
    ghost use Rattle.xsfq_cli.specs.NetTexts.{SaysNet, net_shown};
    ghost use Rattle.xsfq_cli.specs.NetTextLimit.{long_shown, net_bytes_counted, no_net_quiet};

    type Whole = Netlist;

    ghost reads = { λ text reader. IsReading text reader.reader };

    ghost shows = { net_shown };

    ghost judges = { SaysNet };

    ghost most = { greatest_of NetBytes };

    fn feed(&mut self, piece: &[u8]) -> Result<(), Outcome> {
        match self.reader.feed(piece) {
            Ok(fed) => {
                if leaves_bytes(fed.used, piece) {
                    return Err(Outcome::NetText(NetRefusal::BadLine(self.reader.lines() + 1)));
                }
                Ok(())
            }
            Err(refusal) => Err(Outcome::from(refusal)),
        }
    }

    fn finish(self) -> Result<Netlist, Outcome> {
        match self.reader.finish() {
            Ok(net) => Ok(net),
            Err(refusal) => Err(Outcome::from(refusal)),
        }
    }

    ghost quiet = { no_net_quiet };

    ghost counted = { net_bytes_counted };

    ghost limited = { long_shown };
}

/// A netlist with the tables of its wires, or the first rule of soundness that it breaks.
pub(crate) fn judged(alloc: Global, net: Netlist) -> Result<SoundNet, Outcome>
    ensures { IsOrNoMemory (IsSoundOr net) result }
{
    match check(alloc, net) {
        Ok(sound) => Ok(sound),
        Err(Refused::Unsound(_, unsound)) => Err(Outcome::Unsound(unsound)),
        Err(Refused::NoMemory(_)) => Err(Outcome::NoMemory),
    }
}

/// Reads an input that holds one netlist's text, and checks the netlist.
pub(crate) fn read_sound<S: Source>(alloc: Global, input: &mut S) -> Result<SoundNet, Outcome>
    ensures { Reads net_shown HasCheck (input_of S.left S.faults input.old input.new) result }
{
    early_refusals_stand();
    match read_whole(input, NetTextReader::new(alloc)) {
        Ok(net) => judged(alloc, net),
        Err(outcome) => Err(outcome),
    }
}
