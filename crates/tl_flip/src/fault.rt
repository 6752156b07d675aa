//! Why no flip path is made.

use thiserror::Error;

/// Why no flip path is made.
#[derive(Clone, Copy, PartialEq, Eq, Debug, Error)]
pub enum PathFault {
    /// The distance, which is over `FLIP_LIMIT`.
    #[error("too long")]
    TooLong(u64),
    /// Want of memory. It may stand in the place of any path.
    #[error("out of memory")]
    OutOfMemory,
}
