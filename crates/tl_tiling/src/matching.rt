//! Which cells the letters match.

ghost use Rattle.std.specs.Prelude.{◌≡◌, ◌≢◌, ◌*◌, ◌<◌, ◌≤◌, ◌^◌, ◌&&◌, ℕ, true, not, nat_lt, length, find, MatchOption, None, Some, IfSome, IsTrue};
ghost use Rattle.tl_grid.specs.Grid.{IsGrid};
ghost use Rattle.tl_definitions.specs.Lattice.{cell};
ghost use Rattle.tl_definitions.specs.Region.{has};
ghost use Rattle.tl_formats.specs.Drawing.{is_matched as is_matched_by};
ghost use Rattle.tl_tiling.specs.Letters.{letter_at as letter_by, partner_in as partner_by, has_below as has_below_by, is_settled as is_settled_by, AreLettered, IsPair};

use tl_definitions::COORDINATE_LIMIT;
use tl_lattice::{Cell, Kind, is_dark};
use tl_region::Region;

// Whether a place is in the region's rows and columns.
fn is_within(region: &Region, place: Cell) -> bool
    ensures within { result ≡ (nat_lt place.r region.now.rows && nat_lt place.c region.now.columns) }
    ensures is_grid { IsGrid region.now }
{
    place.r < region.rows() && place.c < region.columns()
}

// The letter at a place of the region's rows and columns.
fn letter_at(region: &Region, letters: &[u8], place: Cell) -> u8
    requires size { length letters.now ≡ region.now.rows * region.now.columns }
    requires row { place.r < region.now.rows }
    requires column { place.c < region.now.columns }
    ensures letter { result ≡ letter_by region.now letters.now place }
    ensures is_grid { IsGrid region.now }
{
    let columns = region.columns() as usize;
    letters[place.r as usize * columns + place.c as usize]
}

/// The cell that the letter at a cell of the region names. It has to name one.
pub fn partner_in(region: &Region, letters: &[u8], cell: Cell) -> Cell
    requires is_grid { IsGrid region.now }
    requires size { length letters.now ≡ region.now.rows * region.now.columns }
    requires cell { IsTrue (has region.now cell) }
    requires named { partner_by region.now letters.now cell ≢ None }
    ensures { partner_by region.now letters.now cell ≡ Some result }
{
    let Cell { r, c } = cell;
    match letter_at(region, letters, cell) {
        b'>' => Cell { r, c: c + 1 },
        b'<' => Cell { r, c: c - 1 },
        b'v' => Cell { r: r + 1, c },
        _ => Cell { r: r - 1, c },
    }
}

// Whether a cell has a neighbour below.
fn has_below(kind: Kind, cell: Cell) -> bool
    requires row { cell.r ≤ COORDINATE_LIMIT }
    requires column { cell.c ≤ COORDINATE_LIMIT }
    ensures { result ≡ has_below_by kind cell }
{
    match kind {
        Kind::Square => true,
        Kind::Triangle => is_dark(cell),
    }
}

// Whether the cell that the letter at a cell names is a neighbour in the region, with the letter that names
// this cell. A letter stands only where the region has a cell.
fn is_answered(
    region: &Region,
    letters: &[u8],
    cell: Cell,
    other: Cell,
    near: bool,
    back: u8,
) -> bool
    requires lettered { AreLettered region.now letters.now }
    requires pair { IsPair region.now.kind near cell other (letter_by region.now letters.now cell) back }
    ensures { result ≡ is_matched_by region.now (partner_by region.now letters.now) cell }
{
    if !is_within(region, other) {
        return false;
    }
    near && letter_at(region, letters, other) == back
}

// Whether a place has no letter, or one that is answered.
fn is_settled(region: &Region, letters: &[u8], place: Cell) -> bool
    requires lettered { AreLettered region.now letters.now }
    requires row { place.r < region.now.rows }
    requires column { place.c < region.now.columns }
    ensures { result ≡ is_settled_by region.now letters.now place }
{
    let Cell { r, c } = place;
    match letter_at(region, letters, place) {
        b'>' => is_answered(region, letters, place, Cell { r, c: c + 1 }, true, b'<'),
        b'<' if c > 0 => is_answered(region, letters, place, Cell { r, c: c - 1 }, true, b'>'),
        b'v' => {
            let near = has_below(region.kind(), place);
            is_answered(region, letters, place, Cell { r: r + 1, c }, near, b'^')
        }
        b'^' if r > 0 => {
            let above = Cell { r: r - 1, c };
            let near = has_below(region.kind(), above);
            is_answered(region, letters, place, above, near, b'v')
        }
        letter => letter == b'.',
    }
}

/// The first cell of the region in raster order that isn't matched.
pub fn first_unmatched(region: &Region, letters: &[u8]) -> Option<Cell>
    requires { AreLettered region.now letters.now }
    ensures first { result ≡ find (λ a. not (is_matched_by region.now
        (partner_by region.now letters.now) a)) region.now.cells }
    ensures is_grid { IsGrid region.now }
{
    for r in 0..region.rows() {
        for c in 0..region.columns() {
            let place = Cell { r, c };
            if !is_settled(region, letters, place) {
                return Some(place);
            }
        }
    }
    None
}
