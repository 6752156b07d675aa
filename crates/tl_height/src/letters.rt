//! The letters of a row of cells, by the heights of the corners above and below them.

ghost use Rattle.std.specs.Prelude.{◌≡◌, ◌+◌, ◌<◌, ◌≤◌, ◌^◌, ℕ, false, length, slice_index, slice_index_or, if◌then◌else◌};
ghost use Rattle.tl_height.specs.HeightFunction.{falls_between};
ghost use Rattle.tl_height.specs.Letters.{letter_between, square_letter, triangle_letter};

use tl_definitions::COORDINATE_LIMIT;
use tl_lattice::{Cell, is_dark};

/// Writes the letters of a row of squares, and `.` at each place whose flag isn't set.
pub fn write_squares(flags: &[bool], upper: &[i32], lower: &[i32], line: &mut [u8])
    requires upper { length flags.now < length upper.now }
    requires lower { length flags.now < length lower.now }
    requires size { length flags.now ≤ length line.old }
    ensures size { length line.new ≡ length line.old }
    ensures letters { (c : ℕ) → c < length flags.now → slice_index line.new c
        ≡ (if slice_index_or flags.now c false then square_letter upper.now lower.now c else 46) }
{
    for c in 0..flags.len() {
        line[c] = if flags[c] {
            square_letter(upper, lower, c)
        } else {
            b'.'
        };
    }
}

/// Writes the letters of row r of triangles, and `.` at each place whose flag isn't set.
pub fn write_triangles(r: u32, flags: &[bool], upper: &[i32], lower: &[i32], line: &mut [u8])
    requires row { r ≤ COORDINATE_LIMIT }
    requires columns { length flags.now ≤ COORDINATE_LIMIT }
    requires upper { length flags.now + 1 < length upper.now }
    requires lower { length flags.now + 1 < length lower.now }
    requires size { length flags.now ≤ length line.old }
    ensures size { length line.new ≡ length line.old }
    ensures letters { (c : ℕ) → c < length flags.now → slice_index line.new c
        ≡ (if slice_index_or flags.now c false then triangle_letter r upper.now lower.now c else 46) }
{
    for c in 0..flags.len() {
        line[c] = if flags[c] {
            triangle_letter(r, upper, lower, c)
        } else {
            b'.'
        };
    }
}

// The letter of the square in a column.
fn square_letter(upper: &[i32], lower: &[i32], c: usize) -> u8
    requires upper { c + 1 < length upper.now }
    requires lower { c + 1 < length lower.now }
    ensures { result ≡ square_letter upper.now lower.now c }
{
    letter_between(upper[c], upper[c + 1], lower[c], lower[c + 1])
}

// The letter of the triangle in a column of row r. It has one corner above where it points up, and one below where it
// points down.
fn triangle_letter(r: u32, upper: &[i32], lower: &[i32], c: usize) -> u8
    requires row { r ≤ COORDINATE_LIMIT }
    requires column { c ≤ COORDINATE_LIMIT }
    requires upper { c + 2 < length upper.now }
    requires lower { c + 2 < length lower.now }
    ensures { result ≡ triangle_letter r upper.now lower.now c }
{
    if is_dark(Cell { r, c: c as u32 }) {
        letter_between(upper[c + 1], upper[c + 1], lower[c], lower[c + 2])
    } else {
        letter_between(upper[c], upper[c + 2], lower[c + 1], lower[c + 1])
    }
}

// The letter of a cell whose left and right side have ends of these heights: that of the side along which they fall.
fn letter_between(upper_left: i32, upper_right: i32, lower_left: i32, lower_right: i32) -> u8
    ensures { result ≡ letter_between upper_left upper_right lower_left lower_right }
{
    if falls_between(upper_right, lower_right) {
        b'>'
    } else if falls_between(upper_left, lower_left) {
        b'<'
    } else if falls_between(lower_left, lower_right) {
        b'v'
    } else {
        b'^'
    }
}

/// Whether a step between corners of these heights falls. Along a step the heights rise by 1, or they fall by more.
pub fn falls_between(first: i32, second: i32) -> bool
    ensures { result ≡ falls_between first second }
{
    first.abs_diff(second) > 1
}
