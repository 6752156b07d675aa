//! Why a text tells no obstruction.

use thiserror::Error;

/// Why a section tells no obstruction.
#[derive(Clone, Copy, PartialEq, Eq, Debug, Error)]
pub enum TextFault {
    /// The first line that is wrong, missing or too much, counted from 1.
    #[error("bad line")]
    BadLine(u32),
    /// Want of memory. It may stand in the place of any answer.
    #[error("out of memory")]
    OutOfMemory,
}
