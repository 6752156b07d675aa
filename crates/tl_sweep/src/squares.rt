//! Steps on the square lattice.

ghost use Rattle.std.specs.Prelude.{◌≡◌, ◌+◌, ◌-◌, ◌%◌, ◌<◌, ◌≤◌, ◌==◌, ℕ, length, if◌then◌else◌};
ghost use Rattle.tl_definitions.specs.declared.Kind.TheVariants.{Square};
ghost use Rattle.tl_steps.specs.Stepping.{AreSwept};
ghost use Rattle.tl_sweep.specs.Blocks.{IsBlock, is_between};
ghost use Rattle.tl_sweep.specs.Places.{AreSmall, at, by_class, is_bit, square_stepped, window};
ghost use Rattle.tl_sweep.specs.Sweeps.{bit_in};

use crate::blocks::{Block, bits_from};
use tl_height::Heights;
use tl_lanes::{Beside, lanes_step};

// The bits of the even places, and of the odd ones.
const EVEN: u32 = 0x5555_5555;

const ODD: u32 = 0xAAAA_AAAA;

/// What a step puts at a place: of a corner of class 0 if `is_even`, else of class 1.
#[inline]
pub fn square_height(numbers: &[i32], width: usize, place: usize, is_even: bool, bit: bool) -> i32
    requires above { width < place }
    requires below { place + width + 2 < length numbers.now }
    requires small { AreSmall numbers.now }
    ensures { result ≡ square_stepped numbers.now width place is_even bit }
{
    let left = numbers[place - 1];
    let right = numbers[place + 1];
    let above = numbers[place - width];
    let below = numbers[place + width];
    match (bit, is_even) {
        (true, true) => right.min(left) + 1,
        (true, false) => above.min(below) + 1,
        (false, true) => above.max(below) - 1,
        (false, false) => left.max(right) - 1,
    }
}

// The numbers beside a part of a row, by the class of the corners where steps are made.
#[inline]
fn beside<'a>(
    numbers: &'a [i32],
    width: usize,
    start: usize,
    count: usize,
    is_even: bool,
) -> Beside<'a>
    requires above { width < start }
    requires below { start + count + width < length numbers.now }
    ensures from { result.from.now ≡ window numbers.now (if is_even then start + 1 else start - width) count }
    ensures from_other { result.from_other.now ≡ window numbers.now (if is_even then start - 1 else start + width) count }
    ensures to { result.to.now ≡ window numbers.now (if is_even then start - width else start - 1) count }
    ensures to_other { result.to_other.now ≡ window numbers.now (if is_even then start + width else start + 1) count }
{
    let left = &numbers[start - 1..start - 1 + count];
    let right = &numbers[start + 1..start + 1 + count];
    let above = &numbers[start - width..start - width + count];
    let below = &numbers[start + width..start + width + count];
    if is_even {
        Beside {
            from: right,
            from_other: left,
            to: above,
            to_other: below,
        }
    } else {
        Beside {
            from: above,
            from_other: below,
            to: left,
            to_other: right,
        }
    }
}

// The bits of those places from the first on that are of the class.
#[inline]
fn class_bits(first: usize, class: u8) -> u32
    requires { class < 2 }
    ensures { (j : ℕ) → j < 32 → is_bit result j ≡ ((first + j) % 2 == class) }
{
    if first % 2 == class as usize {
        EVEN
    } else {
        ODD
    }
}

// A part of a row after the steps at the places of a class.
#[inline]
fn step_row(
    out: &mut [i32],
    numbers: &[i32],
    width: usize,
    start: usize,
    is_even: bool,
    bits: u32,
    class: u32,
)
    requires few { length out.old ≤ 32 }
    requires above { width < start }
    requires below { start + length out.old + width < length numbers.now }
    requires small { AreSmall numbers.now }
    ensures { (j : ℕ) → j < length out.old
        → at out.new j ≡ by_class numbers.now width start is_even bits class j }
{
    let count = out.len();
    let beside = beside(numbers, width, start, count, is_even);
    lanes_step(out, &numbers[start..start + count], &beside, bits, class);
}

/// The steps at the corners of a block that are of the class.
#[inline]
pub fn step_squares(heights: &mut Heights, class: u8, words: &[u32], block: Block)
    requires kind { heights.old.region.kind ≡ Square }
    requires class { class < 2 }
    requires block { IsBlock heights.old.region block.number block.place block.count }
    ensures region { heights.new.region ≡ heights.old.region }
    ensures swept { AreSwept heights.old.region heights.old.numbers heights.new.numbers (bit_in words.now)
        (is_between heights.old.region class block.number (block.number + block.count)) }
{
    let mut part = [0; 32];
    step_in(heights, class, words, block, &mut part[..block.count]);
}

// The same, with room for the numbers of the block.
#[inline]
fn step_in(heights: &mut Heights, class: u8, words: &[u32], block: Block, part: &mut [i32])
    requires kind { heights.old.region.kind ≡ Square }
    requires class { class < 2 }
    requires block { IsBlock heights.old.region block.number block.place block.count }
    requires room { length part.old ≡ block.count }
    ensures region { heights.new.region ≡ heights.old.region }
    ensures swept { AreSwept heights.old.region heights.old.numbers heights.new.numbers (bit_in words.now)
        (is_between heights.old.region class block.number (block.number + block.count)) }
{
    let numbers = heights.numbers();
    let width = heights.region().columns() as usize + 2;
    let place = block.place;
    let bits = bits_from(words, block.number);
    let of_class = class_bits(place / width + place % width, class);
    step_row(part, numbers, width, place, class == 0, bits, of_class);
    heights.put(place, part);
}
