//! Where the inner corners of a region stand in strings of bits.

ghost use Rattle.std.specs.Prelude.{◌≡◌, ◌+◌, ◌<◌, ◌≤◌, All};
ghost use Rattle.tl_definitions.specs.Lattice.{class_of as class_number};
ghost use Rattle.tl_strings.specs.Strings.{column};
ghost use Rattle.tl_layout.specs.Layouts.{bit_by, corner_by, IsBetween, IsLayoutOf, size_of, StandsBy, word_by};

use crate::layout::Layout;
use tl_definitions::SIDE_LIMIT;
use tl_lattice::{Corner, Kind, class_of};
use tl_region::Region;

// The word of a corner, and the bit of it.
#[derive(Clone, Copy)]
pub struct Spot {
    pub word: usize,
    pub bit: u32,
    ghost bit_small: { bit < 64 },
}

// The least and the greatest of some columns.
struct Columns {
    first: u32,
    last: u32,
}

// The corner at a place among all corner places, in rows of this width.
fn corner_at(width: u32, place: u32) -> Corner
    requires { 0 < width }
    ensures { result ≡ corner_by width place }
{
    Corner {
        r: place / width,
        x: place % width,
    }
}

fn column_at(kind: Kind, width: u32, place: u32) -> u32
    requires some { 0 < width }
    requires width { width ≤ SIDE_LIMIT + 2 }
    ensures { result ≡ column kind (corner_by width place) }
{
    let corner = corner_at(width, place);
    match kind {
        Kind::Square => corner.x,
        Kind::Triangle => (corner.x + corner.r).saturating_sub(1) / 2,
    }
}

fn columns_of(kind: Kind, width: u32, places: &[u32]) -> Columns
    requires some { 0 < width }
    requires width { width ≤ SIDE_LIMIT + 2 }
    requires columns { All (λ place. column kind (corner_by width place) < SIDE_LIMIT) places.now }
    ensures first { result.first ≤ SIDE_LIMIT }
    ensures last { result.last < SIDE_LIMIT }
    ensures between { All (IsBetween kind width result.first result.last) places.now }
{
    let mut first = SIDE_LIMIT;
    let mut last = 0;
    for place in places {
        let column = column_at(kind, width, *place);
        first = first.min(column);
        last = last.max(column);
    }
    Columns { first, last }
}

impl Layout {
    /// The layout of the inner corners of a region. Their slots begin with the second strip, and end before the last.
    pub fn of(region: &Region) -> Layout
        ensures { IsLayoutOf region.now result }
    {
        let kind = region.kind();
        let width = region.columns() + 2;
        let Columns { first, last } = columns_of(kind, width, region.inner_places());
        Layout {
            kind,
            width,
            first,
            strips: (last + 65).saturating_sub(first) as usize / 64 + 2,
            height: region.rows() as usize + 4,
        }
    }

    // The class of the corner at a place.
    pub(crate) fn class_at(&self, place: u32) -> u8
        requires { StandsBy self.now place }
        ensures { result ≡ class_number self.now.kind (corner_by self.now.width place) }
    {
        class_of(self.kind, corner_at(self.width, place))
    }

    // The word of the corner at a place, and the bit of it.
    pub(crate) fn spot(&self, place: u32) -> Spot
        requires { StandsBy self.now place }
        ensures word { result.word ≡ word_by self.now place }
        ensures bit { result.bit ≡ bit_by self.now place }
        ensures inside { result.word < size_of self.now }
    {
        let slot = column_at(self.kind, self.width, place) + 64 - self.first;
        let row = (place / self.width) as usize + 1;
        Spot {
            word: (slot / 64) as usize * self.height + row,
            bit: slot % 64,
        }
    }
}
