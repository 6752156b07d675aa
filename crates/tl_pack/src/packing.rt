//! The marks of heights, put into strings of bits.

ghost use Rattle.std.specs.Prelude.{◌≡◌, ℕ, ◌+◌, ◌-◌, ◌*◌, ◌<◌, ◌≤◌, ◌^◌, ◌&&◌, ◌||◌, ◌==◌, length, slice_index, ℤ, pos, negsuc, ◌≤ℤ◌, IsTrue};
ghost use Rattle.std.specs.Int.{bit_at};
ghost use Rattle.tl_definitions.specs.declared.Corner.{Corner as CornerShape};
ghost use Rattle.tl_definitions.specs.declared.TheConstants.{COORDINATE_LIMIT};
ghost use Rattle.tl_definitions.specs.Lattice.{class_of as class_number, is_corner as is_corner_by};
ghost use Rattle.tl_definitions.specs.Region.{is_corner_of};
ghost use Rattle.tl_marks.specs.Marks.{base as base_of, is_upper_half as lies_in_upper_half, mark};
ghost use Rattle.tl_strings.specs.Strings.{column as column_of, row_of, slot_of, string_bit, word_place};
ghost use Rattle.tl_layout.specs.Layouts.{corner_by, IsLayoutOf, size_of};
ghost use Rattle.tl_pack.specs.Packs.{ArePacked, HasSlot, HoldsClass, is_in_strings as lies_in_strings, is_set_by};

use crate::spots::{column, slot};
use tl_height::Heights;
use tl_lattice::{Corner, Kind, class_of};
use tl_layout::Layout;

// The height of a corner in one tiling of the whole lattice.
fn base(kind: Kind, corner: Corner) -> i64
    requires row { corner.r ≤ COORDINATE_LIMIT }
    requires place { corner.x ≤ COORDINATE_LIMIT }
    ensures base { result ≡ base_of kind corner }
    ensures low { negsuc (2 ^ 22) ≤ℤ result }
    ensures high { result ≤ℤ pos (2 ^ 22) }
{
    let Corner { r, x } = corner;
    match kind {
        Kind::Square => i64::from((r + x) % 2) - i64::from(2 * x),
        Kind::Triangle => i64::from((2 * x) % 3),
    }
}

// Whether a number lies in the upper half modulo twice the rise of a flip.
fn is_upper_half(kind: Kind, number: i64) -> bool
    ensures { result ≡ lies_in_upper_half kind number }
{
    match kind {
        Kind::Square => number.rem_euclid(8) >= 4,
        Kind::Triangle => number.rem_euclid(6) >= 3,
    }
}

fn is_corner(kind: Kind, corner: Corner) -> bool
    requires row { corner.r ≤ COORDINATE_LIMIT }
    requires place { corner.x ≤ COORDINATE_LIMIT }
    ensures { result ≡ is_corner_by kind corner }
{
    match kind {
        Kind::Square => true,
        Kind::Triangle => (corner.r + corner.x) % 2 == 1,
    }
}

// The place of the word that has the slot of a corner.
fn word(layout: &Layout, corner: Corner) -> usize
    requires row { corner.r ≤ COORDINATE_LIMIT }
    requires place { corner.x ≤ COORDINATE_LIMIT }
    requires near { layout.now.first ≤ column_of layout.now.kind corner + 1 }
    ensures { result ≡ word_place layout.now.height (row_of corner) (slot_of layout.now.kind layout.now.first corner) }
{
    slot(layout, corner) / 64 * layout.height + corner.r as usize + 1
}

// Whether it is a corner of the class whose slot is in the strings.
fn is_in_strings(layout: &Layout, class: u8, corner: Corner) -> bool
    requires row { corner.r ≤ COORDINATE_LIMIT }
    requires place { corner.x ≤ COORDINATE_LIMIT }
    ensures { result ≡ lies_in_strings layout.now class corner }
{
    is_corner(layout.kind, corner)
        && class_of(layout.kind, corner) == class
        && layout.first < column(layout.kind, corner) + 2
        && word(layout, corner) < layout.size()
}

// Whether the bit of a corner is set, where it has this height.
fn is_set(layout: &Layout, class: u8, corner: Corner, height: i32) -> bool
    requires row { corner.r ≤ COORDINATE_LIMIT }
    requires place { corner.x ≤ COORDINATE_LIMIT }
    ensures { result ≡ is_set_by layout.now class corner height }
{
    is_in_strings(layout, class, corner)
        && is_upper_half(layout.kind, i64::from(height) - base(layout.kind, corner))
}

// The corner at a place among all corner places, in rows of this width.
fn corner_at(width: u32, place: usize) -> Corner
    requires some { 0 < width }
    requires place { place < 2 ^ 20 }
    ensures corner { result ≡ corner_by width place }
    ensures row { result.r ≤ COORDINATE_LIMIT }
    ensures column { result.x ≤ COORDINATE_LIMIT }
{
    let place = place as u32;
    Corner {
        r: place / width,
        x: place % width,
    }
}

// Sets a bit of the word at a place.
fn set_bit(words: &mut [u64], place: usize, bit: usize)
    requires place { place < length words.old }
    requires bit { bit < 64 }
    ensures size { length words.new ≡ length words.old }
    ensures bits { (word x : ℕ) → (bit_at (slice_index words.new word) x == 1)
        ≡ ((bit_at (slice_index words.old word) x == 1) || (place == word && bit == x)) }
{
    words[place] |= 1 << bit;
}

// Sets the bits of the marks of a class, where none is set before.
fn mark_all(numbers: &[i32], layout: &Layout, class: u8, words: &mut [u64])
    requires few { length numbers.now < 2 ^ 20 }
    requires rows { length numbers.now + 3 * layout.now.width ≤ layout.now.height * layout.now.width }
    requires size { length words.old ≡ size_of layout.now }
    requires none { (k : ℕ) → slice_index words.old k ≡ 0 }
    ensures size { length words.new ≡ length words.old }
    ensures packed { ArePacked layout.now class numbers.now (length numbers.now) words.new }
{
    for (place, number) in numbers.iter().enumerate() {
        let corner = corner_at(layout.width, place);
        if is_set(layout, class, corner, *number) {
            let bit = slot(layout, corner) % 64;
            set_bit(words, word(layout, corner), bit);
        }
    }
}

/// Overwrites the words of a class by the marks of heights: each corner's at its row and slot. All other bits are 0.
pub fn pack(heights: &Heights, layout: &Layout, class: u8, words: &mut [u64])
    requires layout { IsLayoutOf heights.now.region layout.now }
    requires size { length words.old ≡ size_of layout.now }
    ensures size { length words.new ≡ length words.old }
    ensures holds { HoldsClass heights.now.region layout.now heights.now.numbers class words.new }
    ensures only { (row slot : ℕ) → row < layout.now.height → IsTrue (string_bit layout.now.height words.new row slot)
        → (v : CornerShape) × HasSlot heights.now.region.kind layout.now.first class row slot v }
{
    let region = heights.region();
    let numbers = heights.numbers();
    // the region's calls tell that it is within the limits
    prove!(numbers.len() == (region.rows() as usize + 1) * (region.columns() as usize + 2));
    words.fill(0);
    mark_all(numbers, layout, class, words);
}
