//! Why a region is refused.

use thiserror::Error;
use tl_lattice::{Cell, Corner};

/// Why a text is no region, in the order in which the causes are looked for.
#[derive(Clone, Copy, PartialEq, Eq, Debug, Error)]
pub enum RegionFault {
    /// The first line is neither `square` nor `triangle` with nothing but spaces after it.
    #[error("bad header")]
    BadHeader,
    /// The first place in raster order with a byte other than `#`, `.` and a space.
    #[error("bad byte")]
    BadByte(Cell),
    /// More than `SIDE_LIMIT` rows, or more bytes than that in a row.
    #[error("region too large")]
    TooLarge,
    /// No cell.
    #[error("empty region")]
    Empty,
    /// The first cell in raster order that isn't joined to the first one by neighbours in the region.
    #[error("region in parts")]
    Parts(Cell),
    /// The first corner in raster order round which the region's cells form two or more separate runs.
    #[error("pinch")]
    Pinch(Corner),
    /// The boundary isn't one circuit, or the numbers of corners and cells aren't that of edges and one more.
    #[error("hole")]
    Hole,
    /// Want of memory. It may stand in the place of any answer.
    #[error("out of memory")]
    OutOfMemory,
}
