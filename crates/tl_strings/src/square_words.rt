//! Steps of a class of the square lattice at the slots of one word.

ghost use Rattle.std.specs.Prelude.{◌≡◌, ◌+◌, ◌<◌, ◌≤◌, ℕ, length};
ghost use Rattle.tl_strings.specs.Steps.{across, upright};
ghost use Rattle.tl_strings.specs.Words.{IsSquareWord, bit};

use crate::words::{Planes, before, behind, coin_word, stepped};

/// Steps at the free slots of one word.
#[inline]
pub(crate) fn square_at(
    here: u64,
    others: &[u64],
    planes: Planes<'_>,
    at: usize,
    height: usize,
    is_odd: bool,
) -> u64
    requires coins { length planes.coins.now ≡ length others.now }
    requires lows { length planes.lows.now ≡ length others.now }
    requires free { length planes.free.now ≡ length others.now }
    requires height { 1 ≤ height }
    requires not_first { height ≤ at }
    requires not_last { at + height < length others.now }
    ensures { IsSquareWord is_odd height others.now planes.entry.coins.now planes.entry.lows.now planes.entry.free.now
        here at result }
{
    let west = before(others, at, height);
    let east = behind(others, at, height);
    let level = across_word(here, west, east, is_odd);
    let upright = upright_word(here, others[at - 1], others[at + 1]);
    let coin = coin_word(planes.coins, planes.lows, at, height);
    if is_odd {
        stepped(here, upright, level, coin, planes.free[at])
    } else {
        stepped(here, level, upright, coin, planes.free[at])
    }
}

#[inline]
fn across_word(here: u64, west: u64, east: u64, is_odd: bool) -> u64
    ensures { (place : ℕ) → place < 64 → bit result place
        ≡ across is_odd (bit here place) (bit west place) (bit east place) }
{
    if is_odd {
        (west ^ here) & !(east ^ here)
    } else {
        !(west ^ here) & (east ^ here)
    }
}

#[inline]
fn upright_word(here: u64, north: u64, south: u64) -> u64
    ensures { (place : ℕ) → place < 64 → bit result place
        ≡ upright (bit here place) (bit north place) (bit south place) }
{
    (north ^ here) & (south ^ here)
}
