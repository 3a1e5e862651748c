//! A whole piece to a sink, by as many writes as it needs.

ghost use Rattle.std.specs.Prelude.{◌≡◌, ◌<◌, IsFalse, IsOk, length};
ghost use Rattle.byte_ports.specs.Writing.{WritesText};

use crate::{Failed, Sink};

/// Writes the whole piece, and takes no memory. An empty piece leaves the sink as it was; after
/// any other it isn't flushed.
///
/// Errors: `Failed` only where the count of faults rose. Then a prefix of the piece was taken.
pub fn write_all<K: Sink>(sink: &mut K, bytes: &[u8]) -> Result<(), Failed>
    ensures written { WritesText (K.taken sink.old) (K.taken sink.new) (K.faults sink.old) (K.faults sink.new) result bytes.now }
    ensures unflushed { 0 < length bytes.now → IsFalse (K.flushed sink.new) }
    ensures empty { length bytes.now ≡ 0 → IsOk result }
    ensures untouched { length bytes.now ≡ 0 → sink.new ≡ sink.old }
{
    let mut at = 0;
    while at < bytes.len() {
        match sink.write(&bytes[at..]) {
            Ok(count) => at += count,
            Err(failed) => return Err(failed),
        }
    }
    Ok(())
}
