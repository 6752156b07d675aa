//! Steps of a class of the triangular lattice, two words at a time.

ghost use Rattle.std.specs.Prelude.{◌≡◌, ◌+◌, ◌<◌, ◌≤◌, ◌==◌, ℕ, length, slice_index};
ghost use Rattle.tl_strings.specs.Steps.{all_three};
ghost use Rattle.tl_strings.specs.Strings.{string_bit, word_place};
ghost use Rattle.tl_strings.specs.Swept.{IsSwept};
ghost use Rattle.tl_strings.specs.Words.{IsTriangleWord, bit, triangle_slot};

use crate::pairs::{LANES, before, behind, coin_pair, load, stepped, store};
use crate::triangle_words::triangle_at;
use crate::words::Planes;
use std::simd::prelude::*;

/// Steps at all free slots of the words from `first` to before `end`: `strings` are those of the class, `from` those of
/// the class after it, and `to` those of the class after that. A strip has `height` words.
pub fn step_triangles(
    strings: &mut [u64],
    from: &[u64],
    to: &[u64],
    planes: Planes<'_>,
    height: usize,
    first: usize,
    end: usize,
    class: u8,
)
    requires from { length from.now ≡ length strings.old }
    requires to { length to.now ≡ length strings.old }
    requires coins { length planes.coins.now ≡ length strings.old }
    requires lows { length planes.lows.now ≡ length strings.old }
    requires free { length planes.free.now ≡ length strings.old }
    requires height { 1 ≤ height }
    requires first { height + 1 ≤ first }
    requires range { first ≤ end }
    requires end { end + height + 1 ≤ length strings.old }
    ensures len { length strings.new ≡ length strings.old }
    ensures stepped { (row slot : ℕ) → 1 ≤ row → 1 ≤ slot → first ≤ word_place height row slot
        → word_place height row slot < end
        → string_bit height strings.new row slot
        ≡ triangle_slot class height from.now to.now planes.entry.coins.now planes.entry.lows.now planes.entry.free.now
        row slot (string_bit height strings.old row slot) }
    ensures before { (at : ℕ) → at < first → slice_index strings.new at ≡ slice_index strings.old at }
    ensures behind { (at : ℕ) → end ≤ at → slice_index strings.new at ≡ slice_index strings.old at }
{
    // Each class has a loop of its own.
    match class {
        0 => sweep(strings, from, to, planes, height, first, end, 0),
        1 => sweep(strings, from, to, planes, height, first, end, 1),
        _ => sweep(strings, from, to, planes, height, first, end, class),
    }
}

#[inline(always)]
fn sweep(
    strings: &mut [u64],
    from: &[u64],
    to: &[u64],
    planes: Planes<'_>,
    height: usize,
    first: usize,
    end: usize,
    class: u8,
)
    requires from { length from.now ≡ length strings.old }
    requires to { length to.now ≡ length strings.old }
    requires coins { length planes.coins.now ≡ length strings.old }
    requires lows { length planes.lows.now ≡ length strings.old }
    requires free { length planes.free.now ≡ length strings.old }
    requires height { 1 ≤ height }
    requires first { height + 1 ≤ first }
    requires range { first ≤ end }
    requires end { end + height + 1 ≤ length strings.old }
    ensures len { length strings.new ≡ length strings.old }
    ensures swept { IsSwept
        (λ at word. IsTriangleWord class height from.now to.now planes.entry.coins.now planes.entry.lows.now
        planes.entry.free.now (slice_index strings.old at) at word)
        first end strings.old strings.new }
{
    let mut at = first;
    'pairs: while end - at >= LANES {
        let here = load(strings, at);
        let pair = triangle_pair(here, from, to, planes, at, height, class);
        store(strings, at, pair);
        at += LANES;
    }
    if at < end {
        strings[at] = triangle_at(strings[at], from, to, planes, at, height, class);
    }
}

// Steps at the free slots of two words.
#[inline(always)]
fn triangle_pair(
    here: u64x2,
    from: &[u64],
    to: &[u64],
    planes: Planes<'_>,
    at: usize,
    height: usize,
    class: u8,
) -> u64x2
    requires to { length to.now ≡ length from.now }
    requires coins { length planes.coins.now ≡ length from.now }
    requires lows { length planes.lows.now ≡ length from.now }
    requires free { length planes.free.now ≡ length from.now }
    requires height { 1 ≤ height }
    requires not_first { height + 1 ≤ at }
    requires not_last { at + height + 3 ≤ length from.now }
    ensures { (lane : ℕ) → lane < 2
        → IsTriangleWord class height from.now to.now planes.entry.coins.now planes.entry.lows.now planes.entry.free.now
        (slice_index here lane) (at + lane) (slice_index result lane) }
{
    let west = before(from, at, height);
    let north_east = load(from, at - 1);
    let south_east = behind(from, at + 1, height);
    let all_to = all_three_pair(here, west, north_east, south_east, class == 0);
    let east = behind(to, at, height);
    let north_west = before(to, at - 1, height);
    let south_west = load(to, at + 1);
    let all_from = all_three_pair(here, east, north_west, south_west, class == 1);
    let coin = coin_pair(planes.coins, planes.lows, at, height);
    let free = load(planes.free, at);
    stepped(here, all_to, all_from, coin, free)
}

#[inline(always)]
fn all_three_pair(here: u64x2, first: u64x2, second: u64x2, third: u64x2, is_turned: bool) -> u64x2
    ensures { (lane place : ℕ) → lane < 2 → place < 64 → bit (slice_index result lane) place
        ≡ all_three is_turned (bit (slice_index here lane) place) (bit (slice_index first lane) place)
        (bit (slice_index second lane) place) (bit (slice_index third lane) place) }
{
    let same = if is_turned { !here } else { here };
    (first ^ same) & (second ^ same) & (third ^ same)
}
