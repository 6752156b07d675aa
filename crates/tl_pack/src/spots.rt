//! Where corners stand in strings of bits.

ghost use Rattle.std.specs.Prelude.{◌≡◌, ◌+◌, ◌<◌, ◌≤◌, length, ℕ, List};
ghost use Rattle.tl_definitions.specs.declared.TheConstants.{COORDINATE_LIMIT};
ghost use Rattle.tl_strings.specs.Strings.{column, slot_of, string_bit, word_place};
ghost use Rattle.tl_pack.specs.Packs.{strings_of};

use tl_lattice::{Corner, Kind};
use tl_layout::Layout;

// The column of a corner.
pub fn column(kind: Kind, corner: Corner) -> u32
    requires row { corner.r ≤ COORDINATE_LIMIT }
    requires place { corner.x ≤ COORDINATE_LIMIT }
    ensures { result ≡ column kind corner }
{
    match kind {
        Kind::Square => corner.x,
        Kind::Triangle => (corner.x + corner.r).saturating_sub(1) / 2,
    }
}

// The slot of a corner that is no more than a column before the first.
pub fn slot(layout: &Layout, corner: Corner) -> usize
    requires row { corner.r ≤ COORDINATE_LIMIT }
    requires place { corner.x ≤ COORDINATE_LIMIT }
    requires near { layout.now.first ≤ column layout.now.kind corner + 1 }
    ensures { result ≡ slot_of layout.now.kind layout.now.first corner }
{
    (column(layout.kind, corner) + 64 - layout.first) as usize
}

// The bit of a slot.
pub fn bit(words: &[u64], height: usize, row: usize, slot: usize) -> bool
    requires { word_place height row slot < length words.now }
    ensures { result ≡ string_bit height words.now row slot }
{
    (words[slot / 64 * height + row] >> (slot % 64)) & 1 == 1
}

// The string of a class.
pub fn string_of<'a>(class: u8, first: &'a [u64], second: &'a [u64], third: &'a [u64]) -> &'a [u64]
    ensures { result.now ≡ strings_of first.now second.now third.now class }
{
    match class {
        0 => first,
        1 => second,
        _ => third,
    }
}
