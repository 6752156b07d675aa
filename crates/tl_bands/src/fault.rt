//! Why no cut is made.

use thiserror::Error;

/// Why no cut is made of a list of rows.
#[derive(Clone, Copy, PartialEq, Eq, Debug, Error)]
pub enum CutFault {
    /// The first number of the list, from 0, at which no row stands that may be the first one of a band there. It is 0
    /// where the list is empty.
    #[error("bad first row")]
    BadFirst(u32),
    /// Want of memory. It comes only where the list is a cut.
    #[error("out of memory")]
    OutOfMemory,
}
