//! Why words are no command.

use thiserror::Error;

/// Why no command is read from words.
#[derive(Clone, Copy, PartialEq, Eq, Debug, Error)]
pub enum WordsFault {
    /// The words are no command.
    #[error("usage")]
    Usage,
    /// Want of memory. It may stand in the place of any answer.
    #[error("out of memory")]
    OutOfMemory,
}
