//! Both ends in one string: the low ends where they are, and the high ends one slot on.

ghost use Rattle.std.specs.Prelude.{◌≡◌, ◌+◌, ◌-◌, ◌<◌, ◌≤◌, ◌||◌, if◌then◌else◌, ℕ, length, slice_index};
ghost use Rattle.tl_strings.specs.Strings.{string_bit, word_place};
ghost use Rattle.tl_strings.specs.Words.{IsHighWord, IsJoinedWord, IsLowWord};

use crate::words::{before, behind, chosen, moved_up};

/// Overwrites `both` by the bits of `low`, and those of `high`, each one slot on.
pub fn join(low: &[u64], high: &[u64], both: &mut [u64], height: usize)
    requires high { length high.now ≡ length low.now }
    requires both { length both.old ≡ length low.now }
    ensures len { length both.new ≡ length both.old }
    ensures first { (row : ℕ) → row < height → row < length low.now
        → string_bit height both.new row 0 ≡ string_bit height low.now row 0 }
    ensures joined { (row slot : ℕ) → 1 ≤ slot → word_place height row slot < length low.now
        → string_bit height both.new row slot
        ≡ (string_bit height low.now row slot || string_bit height high.now row (slot - 1)) }
{
    let strip = low.len().min(height);
    for at in 0..strip {
        both[at] = joined_first(low, high, at, height);
    }
    for at in strip..low.len() {
        both[at] = joined_next(low, high, at, height);
    }
}

// A word of the first strip: none stands before it.
#[inline]
fn joined_first(low: &[u64], high: &[u64], at: usize, height: usize) -> u64
    requires low { at < length low.now }
    requires high { at < length high.now }
    requires first_strip { at < height }
    ensures { IsJoinedWord height low.now high.now at result }
{
    low[at] | moved_up(high[at], 0)
}

// A word of a later strip.
#[inline]
fn joined_next(low: &[u64], high: &[u64], at: usize, height: usize) -> u64
    requires low { at < length low.now }
    requires high { at < length high.now }
    requires not_first { height ≤ at }
    ensures { IsJoinedWord height low.now high.now at result }
{
    low[at] | before(high, at, height)
}

/// Takes both ends apart again, in the words from `first` to before `end`: where `lows` has a bit, `low` gets the bit
/// of `joined`, and `high` the bit behind it. All other bits of both are kept.
pub fn part(
    joined: &[u64],
    lows: &[u64],
    low: &mut [u64],
    high: &mut [u64],
    height: usize,
    first: usize,
    end: usize,
)
    requires joined { length joined.now ≡ length low.old }
    requires lows { length lows.now ≡ length low.old }
    requires high { length high.old ≡ length low.old }
    requires range { first ≤ end }
    requires end { end + height ≤ length low.old }
    ensures low_len { length low.new ≡ length low.old }
    ensures high_len { length high.new ≡ length high.old }
    ensures low { (row slot : ℕ) → first ≤ word_place height row slot → word_place height row slot < end
        → string_bit height low.new row slot
        ≡ (if string_bit height lows.now row slot
        then string_bit height joined.now row slot
        else string_bit height low.old row slot) }
    ensures low_before { (at : ℕ) → at < first → slice_index low.new at ≡ slice_index low.old at }
    ensures low_behind { (at : ℕ) → end ≤ at → slice_index low.new at ≡ slice_index low.old at }
    ensures high { (row slot : ℕ) → first ≤ word_place height row slot → word_place height row slot < end
        → string_bit height high.new row slot
        ≡ (if string_bit height lows.now row slot
        then string_bit height joined.now row (slot + 1)
        else string_bit height high.old row slot) }
    ensures high_before { (at : ℕ) → at < first → slice_index high.new at ≡ slice_index high.old at }
    ensures high_behind { (at : ℕ) → end ≤ at → slice_index high.new at ≡ slice_index high.old at }
{
    for at in first..end {
        low[at] = low_at(low[at], joined, lows, at);
        high[at] = high_at(high[at], joined, lows, at, height);
    }
}

#[inline]
fn low_at(here: u64, joined: &[u64], lows: &[u64], at: usize) -> u64
    requires joined { at < length joined.now }
    requires lows { at < length lows.now }
    ensures { (height : ℕ) → IsLowWord height joined.now lows.now here at result }
{
    chosen(lows[at], joined[at], here)
}

#[inline]
fn high_at(here: u64, joined: &[u64], lows: &[u64], at: usize, height: usize) -> u64
    requires joined { at + height < length joined.now }
    requires lows { at < length lows.now }
    ensures { IsHighWord height joined.now lows.now here at result }
{
    chosen(lows[at], behind(joined, at, height), here)
}
