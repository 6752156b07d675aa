//! Steps of a class of the triangular lattice at the slots of one word.

ghost use Rattle.std.specs.Prelude.{◌≡◌, ◌+◌, ◌<◌, ◌≤◌, ◌==◌, ℕ, length};
ghost use Rattle.tl_strings.specs.Steps.{all_three};
ghost use Rattle.tl_strings.specs.Words.{IsTriangleWord, bit};

use crate::words::{Planes, before, behind, coin_word, stepped};

/// Steps at the free slots of one word.
#[inline]
pub(crate) fn triangle_at(
    here: u64,
    from: &[u64],
    to: &[u64],
    planes: Planes<'_>,
    at: usize,
    height: usize,
    class: u8,
) -> u64
    requires to { length to.now ≡ length from.now }
    requires coins { length planes.coins.now ≡ length from.now }
    requires lows { length planes.lows.now ≡ length from.now }
    requires free { length planes.free.now ≡ length from.now }
    requires height { 1 ≤ height }
    requires not_first { height + 1 ≤ at }
    requires not_last { at + height + 1 < length from.now }
    ensures { IsTriangleWord class height from.now to.now planes.entry.coins.now planes.entry.lows.now
        planes.entry.free.now here at result }
{
    let west = before(from, at, height);
    let south_east = behind(from, at + 1, height);
    let all_to = all_three_word(here, west, from[at - 1], south_east, class == 0);
    let east = behind(to, at, height);
    let north_west = before(to, at - 1, height);
    let all_from = all_three_word(here, east, north_west, to[at + 1], class == 1);
    let coin = coin_word(planes.coins, planes.lows, at, height);
    stepped(here, all_to, all_from, coin, planes.free[at])
}

#[inline]
fn all_three_word(here: u64, first: u64, second: u64, third: u64, is_turned: bool) -> u64
    ensures { (place : ℕ) → place < 64 → bit result place
        ≡ all_three is_turned (bit here place) (bit first place) (bit second place) (bit third place) }
{
    let same = if is_turned { !here } else { here };
    (first ^ same) & (second ^ same) & (third ^ same)
}
