//! Writing all bytes to a sink.

ghost use Rattle.std.specs.Prelude.{◌≡◌, OnOk, OnErr};
ghost use Rattle.std.specs.Io.KnownBytes.{append_known};
ghost use Rattle.tl_io.specs.Counts.{Rose};
ghost use Rattle.tl_io.specs.Writes.{AppendsPart};

use crate::sink::{Gave, Sink};
use thiserror::Error;

/// A write failed.
#[derive(Clone, Copy, PartialEq, Eq, Debug, Error)]
#[error("a write failed")]
pub struct WriteFault;

/// Appends all of the bytes. It takes no memory.
///
/// # Errors
/// `WriteFault` where a write failed; then a beginning of the bytes was appended.
pub fn write_all<K: Sink>(sink: &mut K, bytes: &[u8]) -> Result<(), WriteFault>
    ensures whole { OnOk result ((K.state sink.new).held ≡ append_known (K.state sink.old).held bytes.now) }
    ensures part { OnErr result (AppendsPart (K.state sink.old).held (K.state sink.new).held bytes.now) }
    ensures failed { OnErr result (Rose (K.state sink.old).faults (K.state sink.new).faults) }
    ensures steady { OnOk result ((K.state sink.new).faults ≡ (K.state sink.old).faults) }
{
    let mut rest = bytes;
    while !rest.is_empty() {
        match sink.write(rest) {
            Gave::Bytes(count) => rest = &rest[count..],
            Gave::Failed => return Err(WriteFault),
        }
    }
    Ok(())
}
