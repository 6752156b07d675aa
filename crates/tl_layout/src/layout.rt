//! Layouts of strings of bits.

ghost use Rattle.std.specs.Prelude.{◌≡◌, ◌+◌, ◌*◌, ◌<◌, ◌≤◌};
ghost use Rattle.tl_definitions.specs.declared.TheConstants.{SIDE_LIMIT};
ghost use Rattle.tl_layout.specs.declared.layout.TheConstants.{SIZE_LIMIT};

use tl_definitions::SIDE_LIMIT;
use tl_lattice::Kind;

/// No layout has more words.
pub const SIZE_LIMIT: usize = 8192;

/// Where the inner corners of a region stand in strings of bits: the lattice and the width of a row of corner places, the
/// first column that is used, the number of strips and the number of words of a strip.
#[derive(Clone, Copy)]
pub struct Layout {
    pub kind: Kind,
    pub width: u32,
    pub first: u32,
    pub strips: usize,
    pub height: usize,
    ghost width_some: { 0 < width },
    ghost width_small: { width ≤ SIDE_LIMIT + 2 },
    ghost first_small: { first ≤ SIDE_LIMIT },
    ghost height_small: { height ≤ SIDE_LIMIT + 4 },
    ghost size_small: { strips * height ≤ SIZE_LIMIT },
}

impl Layout {
    /// The first column that is used.
    pub fn first(&self) -> u32
        ensures { result ≡ self.now.first }
    {
        self.first
    }

    /// The number of words of a strip.
    pub fn height(&self) -> usize
        ensures { result ≡ self.now.height }
    {
        self.height
    }

    /// The number of words of the strings.
    pub fn size(&self) -> usize
        ensures size { result ≡ self.now.strips * self.now.height }
        ensures small { result ≤ SIZE_LIMIT }
    {
        self.strips * self.height
    }
}
