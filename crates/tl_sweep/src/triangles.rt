//! Steps on the triangular lattice.

ghost use Rattle.std.specs.Prelude.{◌≡◌, ◌+◌, ◌*◌, ◌%◌, ◌<◌, ◌≤◌, ℕ, length};
ghost use Rattle.tl_lanes.specs.Lanes.{greater, lesser};
ghost use Rattle.tl_definitions.specs.declared.Kind.TheVariants.{Triangle};
ghost use Rattle.tl_steps.specs.Stepping.{AreSwept};
ghost use Rattle.tl_sweep.specs.Blocks.{IsBlock, is_between};
ghost use Rattle.tl_sweep.specs.Places.{AreSmall, at, every_sixth, triangle_stepped};
ghost use Rattle.tl_sweep.specs.Sweeps.{bit_in};

use crate::blocks::{Block, bits_from};
use tl_height::Heights;

/// What a step puts at a place.
#[inline]
pub fn triangle_height(numbers: &[i32], width: usize, place: usize, bit: bool) -> i32
    requires above { width < place }
    requires left { 2 ≤ place }
    requires below { place + width + 2 < length numbers.now }
    requires small { AreSmall numbers.now }
    ensures { result ≡ triangle_stepped numbers.now width place bit }
{
    // both, so that a random bit is no branch
    let high = least(
        numbers[place - width + 1],
        numbers[place + width + 1],
        numbers[place - 2],
    );
    let low = greatest(
        numbers[place + 2],
        numbers[place - width - 1],
        numbers[place + width - 1],
    );
    if bit { high + 1 } else { low - 1 }
}

#[inline]
fn least(x: i32, y: i32, z: i32) -> i32
    ensures { result ≡ lesser (lesser x y) z }
{
    x.min(y).min(z)
}

#[inline]
fn greatest(x: i32, y: i32, z: i32) -> i32
    ensures { result ≡ greater (greater x y) z }
{
    x.max(y).max(z)
}

// A part of a row after the steps at every sixth place, which is every third corner.
#[inline]
fn step_row(out: &mut [i32], numbers: &[i32], width: usize, start: usize, first: usize, bits: u32)
    requires few { length out.old ≤ 63 }
    requires first { first < 6 }
    requires left { 2 ≤ start }
    requires above { width < start }
    requires below { start + length out.old + width + 2 ≤ length numbers.now }
    requires small { AreSmall numbers.now }
    ensures { (t : ℕ) → t < length out.old
        → at out.new t ≡ every_sixth numbers.now width start first bits t }
{
    out.copy_from_slice(&numbers[start..start + out.len()]);
    let mut t = first;
    'sixths: while t < out.len() {
        let bit = (bits >> (t / 2)) & 1 == 1;
        out[t] = triangle_height(numbers, width, start + t, bit);
        t += 6;
    }
}

/// The steps at the corners of a block that are of the class.
#[inline]
pub fn step_triangles(heights: &mut Heights, class: u8, words: &[u32], block: Block)
    requires kind { heights.old.region.kind ≡ Triangle }
    requires class { class < 3 }
    requires block { IsBlock heights.old.region block.number block.place block.count }
    ensures region { heights.new.region ≡ heights.old.region }
    ensures swept { AreSwept heights.old.region heights.old.numbers heights.new.numbers (bit_in words.now)
        (is_between heights.old.region class block.number (block.number + block.count)) }
{
    let mut part = [0; 63];
    let size = 2 * block.count - 1;
    step_in(heights, class, words, block, &mut part[..size]);
}

// The same, with room for the numbers from the block's first place to its last.
#[inline]
fn step_in(heights: &mut Heights, class: u8, words: &[u32], block: Block, part: &mut [i32])
    requires kind { heights.old.region.kind ≡ Triangle }
    requires class { class < 3 }
    requires block { IsBlock heights.old.region block.number block.place block.count }
    requires room { length part.old + 1 ≡ 2 * block.count }
    ensures region { heights.new.region ≡ heights.old.region }
    ensures swept { AreSwept heights.old.region heights.old.numbers heights.new.numbers (bit_in words.now)
        (is_between heights.old.region class block.number (block.number + block.count)) }
{
    let numbers = heights.numbers();
    let width = heights.region().columns() as usize + 2;
    let place = block.place;
    let bits = bits_from(words, block.number);
    // x + 2 j leaves this class over 3
    let first = 2 * ((2 * class as usize + place % width) % 3);
    step_row(part, numbers, width, place, first, bits);
    heights.put(place, part);
}
