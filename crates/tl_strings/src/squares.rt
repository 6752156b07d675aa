//! Steps of a class of the square lattice, two words at a time.

ghost use Rattle.std.specs.Prelude.{◌≡◌, ◌+◌, ◌<◌, ◌≤◌, ℕ, length, slice_index};
ghost use Rattle.tl_strings.specs.Steps.{across, upright};
ghost use Rattle.tl_strings.specs.Strings.{string_bit, word_place};
ghost use Rattle.tl_strings.specs.Swept.{IsSwept};
ghost use Rattle.tl_strings.specs.Words.{IsSquareWord, bit, square_slot};

use crate::pairs::{LANES, before, behind, coin_pair, load, stepped, store};
use crate::square_words::square_at;
use crate::words::Planes;
use std::simd::prelude::*;

/// Steps at all free slots of the words from `first` to before `end`: `strings` are those of the class, `others` those
/// of the other one. A strip has `height` words.
pub fn step_squares(
    strings: &mut [u64],
    others: &[u64],
    planes: Planes<'_>,
    height: usize,
    first: usize,
    end: usize,
    is_odd: bool,
)
    requires others { length others.now ≡ length strings.old }
    requires coins { length planes.coins.now ≡ length strings.old }
    requires lows { length planes.lows.now ≡ length strings.old }
    requires free { length planes.free.now ≡ length strings.old }
    requires height { 1 ≤ height }
    requires first { height ≤ first }
    requires range { first ≤ end }
    requires end { end + height ≤ length strings.old }
    ensures len { length strings.new ≡ length strings.old }
    ensures stepped { (row slot : ℕ) → 1 ≤ row → 1 ≤ slot → first ≤ word_place height row slot
        → word_place height row slot < end
        → string_bit height strings.new row slot
        ≡ square_slot is_odd height others.now planes.entry.coins.now planes.entry.lows.now planes.entry.free.now
        row slot (string_bit height strings.old row slot) }
    ensures before { (at : ℕ) → at < first → slice_index strings.new at ≡ slice_index strings.old at }
    ensures behind { (at : ℕ) → end ≤ at → slice_index strings.new at ≡ slice_index strings.old at }
{
    // Each class has a loop of its own.
    if is_odd {
        sweep(strings, others, planes, height, first, end, true)
    } else {
        sweep(strings, others, planes, height, first, end, false)
    }
}

#[inline(always)]
fn sweep(
    strings: &mut [u64],
    others: &[u64],
    planes: Planes<'_>,
    height: usize,
    first: usize,
    end: usize,
    is_odd: bool,
)
    requires others { length others.now ≡ length strings.old }
    requires coins { length planes.coins.now ≡ length strings.old }
    requires lows { length planes.lows.now ≡ length strings.old }
    requires free { length planes.free.now ≡ length strings.old }
    requires height { 1 ≤ height }
    requires first { height ≤ first }
    requires range { first ≤ end }
    requires end { end + height ≤ length strings.old }
    ensures len { length strings.new ≡ length strings.old }
    ensures swept { IsSwept
        (λ at word. IsSquareWord is_odd height others.now planes.entry.coins.now planes.entry.lows.now
        planes.entry.free.now (slice_index strings.old at) at word)
        first end strings.old strings.new }
{
    let mut at = first;
    'pairs: while end - at >= LANES {
        let here = load(strings, at);
        let pair = square_pair(here, others, planes, at, height, is_odd);
        store(strings, at, pair);
        at += LANES;
    }
    if at < end {
        strings[at] = square_at(strings[at], others, planes, at, height, is_odd);
    }
}

// Steps at the free slots of two words.
#[inline(always)]
fn square_pair(
    here: u64x2,
    others: &[u64],
    planes: Planes<'_>,
    at: usize,
    height: usize,
    is_odd: bool,
) -> u64x2
    requires coins { length planes.coins.now ≡ length others.now }
    requires lows { length planes.lows.now ≡ length others.now }
    requires free { length planes.free.now ≡ length others.now }
    requires height { 1 ≤ height }
    requires not_first { height ≤ at }
    requires not_last { at + height + 2 ≤ length others.now }
    ensures { (lane : ℕ) → lane < 2
        → IsSquareWord is_odd height others.now planes.entry.coins.now planes.entry.lows.now planes.entry.free.now
        (slice_index here lane) (at + lane) (slice_index result lane) }
{
    let west = before(others, at, height);
    let east = behind(others, at, height);
    let level = across_pair(here, west, east, is_odd);
    let north = load(others, at - 1);
    let south = load(others, at + 1);
    let upright = upright_pair(here, north, south);
    let coin = coin_pair(planes.coins, planes.lows, at, height);
    let free = load(planes.free, at);
    if is_odd {
        stepped(here, upright, level, coin, free)
    } else {
        stepped(here, level, upright, coin, free)
    }
}

#[inline(always)]
fn across_pair(here: u64x2, west: u64x2, east: u64x2, is_odd: bool) -> u64x2
    ensures { (lane place : ℕ) → lane < 2 → place < 64 → bit (slice_index result lane) place
        ≡ across is_odd (bit (slice_index here lane) place) (bit (slice_index west lane) place)
        (bit (slice_index east lane) place) }
{
    if is_odd {
        (west ^ here) & !(east ^ here)
    } else {
        !(west ^ here) & (east ^ here)
    }
}

#[inline(always)]
fn upright_pair(here: u64x2, north: u64x2, south: u64x2) -> u64x2
    ensures { (lane place : ℕ) → lane < 2 → bit (slice_index result lane) place
        ≡ upright (bit (slice_index here lane) place) (bit (slice_index north lane) place)
        (bit (slice_index south lane) place) }
{
    (north ^ here) & (south ^ here)
}
