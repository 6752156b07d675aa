//! Reading a source to its end.

ghost use Rattle.std.specs.Prelude.{◌≡◌, ◌≢◌, ℕ, ◌≤◌, List, length, IfOk, OnOk, IfErr, Err};
ghost use Rattle.std.specs.Io.KnownBytes.{prepend_known, IsAtEnd};
ghost use Rattle.tl_io.specs.Counts.{Rose};
ghost use Rattle.tl_io.specs.Reads.{IsStopAfter};
ghost use Rattle.tl_io.specs.declared.reading.InFault.TheVariants.{ReadFault};

use crate::source::{Source, Took};
use std::alloc::{AllocError, Global};
use thiserror::Error;

/// Why a source wasn't read to its end.
#[derive(Clone, Copy, PartialEq, Eq, Debug, Error)]
pub enum InFault {
    #[error("a read failed")]
    ReadFault,
    #[error("the input is too long")]
    InputTooLong,
    #[error("out of memory")]
    OutOfMemory,
}

/// How many bytes are asked for at once, at most.
const PIECE: usize = 8192;

/// All bytes up to the end, which are at most `limit`.
///
/// # Errors
/// `ReadFault` where a read failed; `InputTooLong` where more than `limit` bytes came before a failure or
/// the end; `OutOfMemory`. The bytes that came until then are gone from the source: at most one past the
/// limit.
pub fn read_all<S: Source>(alloc: Global, source: &mut S, limit: usize) -> Result<Vec<u8>, InFault>
    ensures whole { IfOk result (λ v. (S.state source.old).left
        ≡ prepend_known v.items (S.state source.new).left) }
    ensures end { OnOk result (IsAtEnd (S.state source.new).left) }
    ensures within { IfOk result (λ v. length v.items ≤ limit) }
    ensures stopped { IfErr result (λ fault. (bytes : List ℕ)
        × ((S.state source.old).left ≡ prepend_known bytes (S.state source.new).left)
        × IsStopAfter limit fault (length bytes)) }
    ensures failed { result ≡ Err ReadFault → Rose (S.state source.old).faults (S.state source.new).faults }
    ensures steady { result ≢ Err ReadFault → (S.state source.new).faults ≡ (S.state source.old).faults }
{
    let mut bytes = Vec::new(alloc);
    let mut piece = [0u8; PIECE];
    loop {
        let room = (limit - bytes.len()).min(PIECE - 1);
        match source.read(&mut piece[..room + 1]) {
            Took::Bytes(count) => {
                if count > limit - bytes.len() {
                    return Err(InFault::InputTooLong);
                }
                if bytes.extend_from_slice(&piece[..count]).is_err() {
                    return Err(InFault::OutOfMemory);
                }
            }
            Took::End => return Ok(bytes),
            Took::Failed => return Err(InFault::ReadFault),
        }
    }
}
