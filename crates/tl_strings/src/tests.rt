//! Steps and ends beside plain loops over bits.

ghost use Rattle.std.specs.Prelude.{◌≤◌};

use crate::{Planes, join, part, step_squares, step_triangles};

// Four strips of six rows.
const HEIGHT: usize = 6;

const WORDS: usize = 24;

const SLOTS: usize = 256;

// The first word that is stepped or parted: that of the second row of the second strip.
const FIRST: usize = 7;

fn words(seed: u64) -> [u64; WORDS] {
    let mut words = [0; WORDS];
    let mut word = seed;
    for at in 0..WORDS {
        word = word
            .wrapping_mul(0x5851_f42d_4c95_7f2d)
            .wrapping_add(0x1405_7b7e_f767_814f);
        words[at] = word ^ (word >> 29);
    }
    words
}

fn string_bit(words: &[u64], row: usize, slot: usize) -> bool
    requires row { row ≤ 6 }
    requires slot { slot ≤ 256 }
{
    match words.get(slot / 64 * HEIGHT + row) {
        Some(word) => (*word >> (slot % 64)) & 1 == 1,
        None => false,
    }
}

fn is_crossed(one: bool, other: bool, is_turned: bool) -> bool {
    (one != other) != is_turned
}

// The bit of a free slot after a step.
fn stepped(here: bool, all_to: bool, all_from: bool, coin: bool) -> bool {
    if coin {
        here != all_to
    } else {
        here != all_from
    }
}

// A corner has its low end at its own slot, and its high end at the slot behind.
fn coin_of(coins: &[u64], lows: &[u64], row: usize, slot: usize) -> bool
    requires row { row ≤ 6 }
    requires slot { slot ≤ 256 }
{
    if string_bit(lows, row, slot) {
        string_bit(coins, row, slot)
    } else {
        slot > 0 && string_bit(lows, row, slot - 1) && string_bit(coins, row, slot - 1)
    }
}

// No two low slots beside each other.
fn low_slots() -> [u64; WORDS] {
    [0x4924_9249_2492_4924; WORDS]
}

#[test]
fn steps_of_squares(rt: HostRuntime) {
    let (old, others, coins, lows, free) = (words(1), words(2), words(3), low_slots(), words(4));
    let planes = Planes {
        coins: &coins,
        lows: &lows,
        free: &free,
    };
    for is_odd in [false, true] {
        let mut new = old;
        step_squares(&mut new, &others, planes, HEIGHT, FIRST, 11, is_odd);
        for row in 1..5 {
            for slot in 64..128 {
                let here = string_bit(&old, row, slot);
                let across = is_crossed(here, string_bit(&others, row, slot - 1), !is_odd)
                    && is_crossed(here, string_bit(&others, row, slot + 1), is_odd);
                let upright = is_crossed(here, string_bit(&others, row - 1, slot), false)
                    && is_crossed(here, string_bit(&others, row + 1, slot), false);
                let coin = coin_of(&coins, &lows, row, slot);
                let wanted = match (string_bit(&free, row, slot), is_odd) {
                    (false, _) => here,
                    (true, false) => stepped(here, across, upright, coin),
                    (true, true) => stepped(here, upright, across, coin),
                };
                assert_eq!(rt;
                    string_bit(&new, row, slot),
                    wanted,
                    "row {row}, slot {slot}, {is_odd}"
                );
            }
        }
        assert_eq!(rt; (&new[..FIRST], &new[11..]), (&old[..FIRST], &old[11..]));
    }
}

#[test]
fn steps_of_triangles(rt: HostRuntime) {
    let (old, from, to, coins, lows, free) = (
        words(1),
        words(2),
        words(3),
        words(4),
        low_slots(),
        words(5),
    );
    let planes = Planes {
        coins: &coins,
        lows: &lows,
        free: &free,
    };
    for class in 0..3 {
        let mut new = old;
        step_triangles(&mut new, &from, &to, planes, HEIGHT, 13, 17, class);
        for row in 1..5 {
            for slot in 128..192 {
                let here = string_bit(&old, row, slot);
                let all_to = is_crossed(here, string_bit(&from, row, slot - 1), class == 0)
                    && is_crossed(here, string_bit(&from, row - 1, slot), class == 0)
                    && is_crossed(here, string_bit(&from, row + 1, slot + 1), class == 0);
                let all_from = is_crossed(here, string_bit(&to, row, slot + 1), class == 1)
                    && is_crossed(here, string_bit(&to, row - 1, slot - 1), class == 1)
                    && is_crossed(here, string_bit(&to, row + 1, slot), class == 1);
                let wanted = if string_bit(&free, row, slot) {
                    stepped(here, all_to, all_from, coin_of(&coins, &lows, row, slot))
                } else {
                    here
                };
                assert_eq!(rt;
                    string_bit(&new, row, slot),
                    wanted,
                    "row {row}, slot {slot}, class {class}"
                );
            }
        }
        assert_eq!(rt; (&new[..13], &new[17..]), (&old[..13], &old[17..]));
    }
}

// The strings after steps at so many words: at all of them, two at a time, and at one after the other.
fn squares(count: usize, is_odd: bool) -> ([u64; WORDS], [u64; WORDS])
    requires { count ≤ 6 }
{
    let (others, coins, lows, free) = (words(2), words(3), words(4), words(5));
    let planes = Planes {
        coins: &coins,
        lows: &lows,
        free: &free,
    };
    let (mut by_pairs, mut by_words) = (words(1), words(1));
    let end = FIRST + count;
    step_squares(&mut by_pairs, &others, planes, HEIGHT, FIRST, end, is_odd);
    for at in FIRST..end {
        step_squares(&mut by_words, &others, planes, HEIGHT, at, at + 1, is_odd);
    }
    (by_pairs, by_words)
}

fn triangles(count: usize, class: u8) -> ([u64; WORDS], [u64; WORDS])
    requires { count ≤ 6 }
{
    let (from, to) = (words(2), words(6));
    let (coins, lows, free) = (words(3), words(4), words(5));
    let planes = Planes {
        coins: &coins,
        lows: &lows,
        free: &free,
    };
    let (mut by_pairs, mut by_words) = (words(1), words(1));
    let end = FIRST + count;
    step_triangles(&mut by_pairs, &from, &to, planes, HEIGHT, FIRST, end, class);
    for at in FIRST..end {
        step_triangles(&mut by_words, &from, &to, planes, HEIGHT, at, at + 1, class);
    }
    (by_pairs, by_words)
}

#[test]
fn squares_as_word_by_word(rt: HostRuntime) {
    for is_odd in [false, true] {
        let (two, wanted) = squares(2, is_odd);
        assert_eq!(rt; two, wanted, "two words, {is_odd}");
        let (five, wanted) = squares(5, is_odd);
        assert_eq!(rt; five, wanted, "five words, {is_odd}");
        let (six, wanted) = squares(6, is_odd);
        assert_eq!(rt; six, wanted, "six words, {is_odd}");
        assert!(rt; six != words(1));
    }
}

#[test]
fn triangles_as_word_by_word(rt: HostRuntime) {
    for class in 0..3 {
        let (two, wanted) = triangles(2, class);
        assert_eq!(rt; two, wanted, "two words, class {class}");
        let (five, wanted) = triangles(5, class);
        assert_eq!(rt; five, wanted, "five words, class {class}");
        let (six, wanted) = triangles(6, class);
        assert_eq!(rt; six, wanted, "six words, class {class}");
        assert!(rt; six != words(1));
    }
}

#[test]
fn both_ends_joined_and_parted(rt: HostRuntime) {
    let (lows, low, high) = (low_slots(), words(1), words(2));
    let mut joined = words(3);
    join(&low, &high, &mut joined, HEIGHT);
    for row in 0..HEIGHT {
        for slot in 0..SLOTS {
            let wanted = string_bit(&low, row, slot)
                || (slot > 0 && string_bit(&high, row, slot - 1));
            assert_eq!(rt;
                string_bit(&joined, row, slot),
                wanted,
                "joined: row {row}, slot {slot}"
            );
        }
    }
    let (mut new_low, mut new_high) = (low, high);
    part(
        &joined,
        &lows,
        &mut new_low,
        &mut new_high,
        HEIGHT,
        FIRST,
        17,
    );
    for row in 0..HEIGHT {
        for slot in 0..SLOTS {
            let is_parted = (FIRST..17).contains(&(slot / 64 * HEIGHT + row));
            let wanted = if is_parted && string_bit(&lows, row, slot) {
                (
                    string_bit(&joined, row, slot),
                    string_bit(&joined, row, slot + 1),
                )
            } else {
                (string_bit(&low, row, slot), string_bit(&high, row, slot))
            };
            let found = (
                string_bit(&new_low, row, slot),
                string_bit(&new_high, row, slot),
            );
            assert_eq!(rt; found, wanted, "parted: row {row}, slot {slot}");
        }
    }
}
