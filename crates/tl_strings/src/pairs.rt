//! Pairs of words: those beside them, their coins, and steps at all their slots.

ghost use Rattle.std.specs.Prelude.{◌≡◌, ◌+◌, ◌-◌, ◌%◌, ◌<◌, ◌≤◌, ℕ, length, slice_index};
ghost use Rattle.tl_strings.specs.Steps.{coin_bit, stepped_bit};
ghost use Rattle.tl_strings.specs.Strings.{string_bit, word_place};
ghost use Rattle.tl_strings.specs.Words.{bit, bit_before, bit_behind};
ghost use Rattle.tl_strings.specs.Pairs.{IsPairAt, IsPairStored};

use std::simd::prelude::*;

/// The words of one vector.
pub(crate) const LANES: usize = 2;

// The two words from a place on.
#[inline(always)]
pub(crate) fn load(words: &[u64], at: usize) -> u64x2
    requires { at + 2 ≤ length words.now }
    ensures { IsPairAt words.now at result }
{
    u64x2::from_slice(&words[at..at + LANES])
}

#[inline(always)]
pub(crate) fn store(words: &mut [u64], at: usize, pair: u64x2)
    requires { at + 2 ≤ length words.old }
    ensures len { length words.new ≡ length words.old }
    ensures stored { IsPairStored at pair words.old words.new }
{
    pair.copy_to_slice(&mut words[at..at + LANES]);
}

// Each place has the bit of the place before.
#[inline(always)]
fn moved_up(words: u64x2, previous: u64x2) -> u64x2
    ensures { (lane place : ℕ) → lane < 2 → place < 64 → bit (slice_index result lane) place
        ≡ bit_before (slice_index words lane) (slice_index previous lane) place }
{
    (words << u64x2::splat(1)) | (previous >> u64x2::splat(63))
}

// Each place has the bit of the place behind.
#[inline(always)]
fn moved_down(words: u64x2, next: u64x2) -> u64x2
    ensures { (lane place : ℕ) → lane < 2 → place < 64 → bit (slice_index result lane) place
        ≡ bit_behind (slice_index words lane) (slice_index next lane) place }
{
    (words >> u64x2::splat(1)) | (next << u64x2::splat(63))
}

// Each slot has the bit of the slot before.
#[inline(always)]
pub(crate) fn before(words: &[u64], at: usize, height: usize) -> u64x2
    requires not_first { height ≤ at }
    requires within { at + 2 ≤ length words.now }
    ensures { (lane row slot : ℕ) → lane < 2 → word_place height row slot ≡ at + lane → 1 ≤ slot
        → bit (slice_index result lane) (slot % 64)
        ≡ string_bit height words.now row (slot - 1) }
{
    moved_up(load(words, at), load(words, at - height))
}

// Each slot has the bit of the slot behind.
#[inline(always)]
pub(crate) fn behind(words: &[u64], at: usize, height: usize) -> u64x2
    requires not_last { at + height + 2 ≤ length words.now }
    ensures { (lane row slot : ℕ) → lane < 2 → word_place height row slot ≡ at + lane
        → bit (slice_index result lane) (slot % 64)
        ≡ string_bit height words.now row (slot + 1) }
{
    moved_down(load(words, at), load(words, at + height))
}

// The coins of low slots, and each once more at the slot behind.
#[inline(always)]
pub(crate) fn coin_pair(coins: &[u64], lows: &[u64], at: usize, height: usize) -> u64x2
    requires not_first { height ≤ at }
    requires coins { at + 2 ≤ length coins.now }
    requires lows { at + 2 ≤ length lows.now }
    ensures { (lane row slot : ℕ) → lane < 2 → word_place height row slot ≡ at + lane → 1 ≤ slot
        → bit (slice_index result lane) (slot % 64)
        ≡ coin_bit height coins.now lows.now row slot }
{
    let here = load(coins, at) & load(lows, at);
    let previous = load(coins, at - height) & load(lows, at - height);
    here | moved_up(here, previous)
}

// Steps at all slots of a pair of words that are free.
#[inline(always)]
pub(crate) fn stepped(
    here: u64x2,
    all_to: u64x2,
    all_from: u64x2,
    coin: u64x2,
    free: u64x2,
) -> u64x2
    ensures { (lane place : ℕ) → lane < 2 → place < 64 → bit (slice_index result lane) place
        ≡ stepped_bit (bit (slice_index here lane) place) (bit (slice_index all_to lane) place)
        (bit (slice_index all_from lane) place) (bit (slice_index coin lane) place)
        (bit (slice_index free lane) place) }
{
    here ^ (((all_to & coin) | (all_from & !coin)) & free)
}
