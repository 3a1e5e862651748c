//! Readers of sources in their course, and latches without an initial value, to which a reader gives the chosen one.

use aiger_reader::{AigerCause, AigerReader, AigerRefusal};
use blif_reader::{BlifCause, BlifReader, BlifRefusal};
use source_machine::{Machine, Place, Unset};
use std::alloc::Global;
use std::test::Fail;

/// The machine of an AIGER source.
fn aiger(alloc: Global, source: &[u8], unset: Unset) -> Result<Machine, AigerRefusal> {
    let mut reader = AigerReader::with(alloc, unset);
    reader.feed(source)?;
    reader.finish()
}

/// The machine of a BLIF source.
fn blif(alloc: Global, source: &[u8], unset: Unset) -> Result<Machine, BlifRefusal> {
    let mut reader = BlifReader::with(alloc, unset);
    reader.feed(source)?;
    reader.finish()
}

/// Whether the latches of a machine begin so.
fn begin_with(machine: &Machine, bits: &[bool]) -> bool {
    let latches = &machine.raw().latches;
    latches.len() == bits.len()
        && latches
            .iter()
            .zip(bits)
            .all(|(latch, bit)| latch.init == *bit)
}

#[test]
fn unset_latches_get_the_chosen_bit(rt: HostRuntime) -> Result<(), Fail> {
    let ascii = b"aag 1 0 1 1 0\n2 3 2\n2\n".as_slice();
    let lines =
        b".model a\n.inputs d\n.latch d q\n.latch d r 2\n.latch d s 0\n.latch d t 1\n".as_slice();
    for (unset, bit) in [(Unset::Zero, false), (Unset::One, true)] {
        assert!(rt; begin_with(&aiger(rt.alloc(), ascii, unset)?, &[bit]));
        assert!(rt; begin_with(&blif(rt.alloc(), lines, unset)?, &[bit, bit, false, true]));
    }
    Ok(())
}

/// Whether an answer is the refusal of line 2 for a literal out of range.
fn is_out_of_range(refusal: Option<AigerRefusal>) -> bool {
    match refusal {
        Some(AigerRefusal::Fault(fault)) => {
            matches!(fault.place, Place::Line(2))
                && matches!(fault.cause, AigerCause::OutOfRange(3))
        }
        _ => false,
    }
}

#[test]
fn a_refusal_of_aiger_is_told_early_and_again(rt: HostRuntime) -> Result<(), Fail> {
    let mut reader = AigerReader::new(rt.alloc());
    reader.feed(b"aag 1 1 0 1 0")?;
    reader.feed(b"\n3")?;
    for piece in [b"\n".as_slice(), b"", b"2\n"] {
        assert!(rt; is_out_of_range(reader.feed(piece).err()));
    }
    assert!(rt; is_out_of_range(reader.finish().err()));
    Ok(())
}

/// Whether an answer is the refusal of line 2 for the first word `.gate`.
fn is_unsupported(refusal: Option<BlifRefusal>) -> bool {
    match refusal {
        Some(BlifRefusal::Fault(fault)) => match (fault.place, &fault.cause) {
            (Place::Line(2), BlifCause::Unsupported(name)) => name.bytes() == b".gate".as_slice(),
            _ => false,
        },
        _ => false,
    }
}

#[test]
fn a_refusal_of_blif_is_told_early_and_again(rt: HostRuntime) -> Result<(), Fail> {
    let mut reader = BlifReader::new(rt.alloc());
    reader.feed(b".model a\n.gate")?;
    reader.feed(b" \\\n x")?;
    for piece in [b"\n".as_slice(), b"", b".model"] {
        assert!(rt; is_unsupported(reader.feed(piece).err()));
    }
    assert!(rt; is_unsupported(reader.finish().err()));
    Ok(())
}
