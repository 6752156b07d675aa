//! Words of 64 slots: those beside them, their coins, and steps at all their slots.

ghost use Rattle.std.specs.Prelude.{◌≡◌, ◌+◌, ◌-◌, ◌%◌, ◌<◌, ◌≤◌, if◌then◌else◌, ℕ, length};
ghost use Rattle.tl_strings.specs.Steps.{coin_bit, stepped_bit};
ghost use Rattle.tl_strings.specs.Strings.{string_bit, word_place};
ghost use Rattle.tl_strings.specs.Words.{bit, bit_before, bit_behind};

/// What a class reads besides the strings: its coins, the slots of its corners' low ends, and all slots that are free.
#[derive(Clone, Copy)]
pub struct Planes<'a> {
    pub coins: &'a [u64],
    pub lows: &'a [u64],
    pub free: &'a [u64],
}

// Each place has the bit of the place before.
#[inline]
pub(crate) fn moved_up(word: u64, previous: u64) -> u64
    ensures { (place : ℕ) → place < 64 → bit result place ≡ bit_before word previous place }
{
    (word << 1) | (previous >> 63)
}

// Each place has the bit of the place behind.
#[inline]
pub(crate) fn moved_down(word: u64, next: u64) -> u64
    ensures { (place : ℕ) → place < 64 → bit result place ≡ bit_behind word next place }
{
    (word >> 1) | (next << 63)
}

// Each slot has the bit of the slot before.
#[inline]
pub(crate) fn before(words: &[u64], at: usize, height: usize) -> u64
    requires not_first { height ≤ at }
    requires within { at < length words.now }
    ensures { (row slot : ℕ) → word_place height row slot ≡ at → 1 ≤ slot → bit result (slot % 64)
        ≡ string_bit height words.now row (slot - 1) }
{
    moved_up(words[at], words[at - height])
}

// Each slot has the bit of the slot behind.
#[inline]
pub(crate) fn behind(words: &[u64], at: usize, height: usize) -> u64
    requires not_last { at + height < length words.now }
    ensures { (row slot : ℕ) → word_place height row slot ≡ at → bit result (slot % 64)
        ≡ string_bit height words.now row (slot + 1) }
{
    moved_down(words[at], words[at + height])
}

// The coins of low slots, and each once more at the slot behind.
#[inline]
pub(crate) fn coin_word(coins: &[u64], lows: &[u64], at: usize, height: usize) -> u64
    requires not_first { height ≤ at }
    requires coins { at < length coins.now }
    requires lows { at < length lows.now }
    ensures { (row slot : ℕ) → word_place height row slot ≡ at → 1 ≤ slot → bit result (slot % 64)
        ≡ coin_bit height coins.now lows.now row slot }
{
    let here = coins[at] & lows[at];
    let previous = coins[at - height] & lows[at - height];
    here | moved_up(here, previous)
}

// Steps at all slots of a word that are free.
#[inline]
pub(crate) fn stepped(here: u64, all_to: u64, all_from: u64, coin: u64, free: u64) -> u64
    ensures { (place : ℕ) → place < 64 → bit result place
        ≡ stepped_bit (bit here place) (bit all_to place) (bit all_from place) (bit coin place) (bit free place) }
{
    here ^ (((all_to & coin) | (all_from & !coin)) & free)
}

// The bits of `one` where `mask` has a bit, and those of `other` elsewhere.
#[inline]
pub(crate) fn chosen(mask: u64, one: u64, other: u64) -> u64
    ensures { (place : ℕ) → place < 64 → bit result place
        ≡ (if bit mask place then bit one place else bit other place) }
{
    (one & mask) | (other & !mask)
}
