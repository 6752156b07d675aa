//! Why a drawing is refused.

use thiserror::Error;
use tl_lattice::Cell;

/// Why a text draws no tiling of the region, in the order in which the causes are looked for.
#[derive(Clone, Copy, PartialEq, Eq, Debug, Error)]
pub enum DrawFault {
    /// The first place in raster order whose byte isn't allowed there: a place of the region must have a letter,
    /// and every other place a `.`, a space or nothing.
    #[error("bad letter")]
    BadLetter(Cell),
    /// The first cell in raster order whose letter names no cell of the region that is its neighbour and names
    /// it back.
    #[error("unmatched cell")]
    Unmatched(Cell),
    /// Want of memory. It may stand in the place of any answer.
    #[error("out of memory")]
    OutOfMemory,
}
