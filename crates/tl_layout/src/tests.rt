//! Slots and coins of small regions.

ghost use Rattle.std.specs.Prelude.{◌≤◌, length};

use crate::{Layout, Pieces, free_slots, mark_slots};
use std::alloc::Global;
use tl_formats::INPUT_LIMIT;
use tl_region::read_region;

// The Aztec diamond of order 2: of its five inner corners three stand in one row, and one above and one below them.
const DIAMOND: &[u8] = b"square\n.##\n####\n####\n.##\n";

// Two towers on a wall: its first two rows of inner corners have one in each tower.
const TOWERS: &[u8] = b"square\n##.##\n##.##\n#####\n#####\n";

// A row of 69 inner corners.
const CORRIDOR: &[u8] =
    b"square\n######################################################################\n######################################################################\n";

// Two hexagons side by side.
const HEXAGONS: &[u8] = b"triangle\n#####\n#####\n";

const OUTSIDE: u32 = 4_294_967_295;

// The words of the strings that are not 0, with their places, where all were 0 before.
fn coins(alloc: Global, text: &[u8], raw: &[u32]) -> Option<Vec<(usize, u64)>>
    requires { length text.now ≤ INPUT_LIMIT }
{
    let (region, _) = read_region(alloc, text).ok()?;
    let layout = Layout::of(&region);
    let pieces = Pieces::of(alloc, &region, &layout).ok()?;
    let mut words = vec![in alloc; 0u64; pieces.size].ok()?;
    if raw.len() < 8 || raw.len() - 8 != pieces.words {
        return None;
    }
    pieces.lay_out(raw, words.as_mut_slice());
    some_of(alloc, words.as_slice())
}

fn some_of(alloc: Global, words: &[u64]) -> Option<Vec<(usize, u64)>> {
    let mut some = Vec::new(alloc);
    for (place, word) in words.iter().enumerate() {
        if *word != 0 {
            some.push((place, *word)).ok()?;
        }
    }
    Some(some)
}

// The slots of a class, or all that are free for its two ends.
fn slots(alloc: Global, text: &[u8], class: u8, is_free: bool) -> Option<Vec<(usize, u64)>>
    requires { length text.now ≤ INPUT_LIMIT }
{
    let (region, _) = read_region(alloc, text).ok()?;
    let layout = Layout::of(&region);
    let lows = mark_slots(alloc, &region, &layout, class).ok()?;
    if is_free {
        let free = free_slots(alloc, lows.as_slice(), layout.height()).ok()?;
        some_of(alloc, free.as_slice())
    } else {
        some_of(alloc, lows.as_slice())
    }
}

fn are(some: Option<Vec<(usize, u64)>>, wanted: &[(usize, u64)]) -> bool {
    match some {
        Some(words) => words.as_slice() == wanted,
        None => false,
    }
}

// A time of one word, among words that have only ones.
fn one_word(word: u32) -> [u32; 9] {
    [
        OUTSIDE, OUTSIDE, OUTSIDE, OUTSIDE, word, OUTSIDE, OUTSIDE, OUTSIDE, OUTSIDE,
    ]
}

#[test]
fn coins_of_a_diamond(rt: HostRuntime) {
    assert!(rt;
        are(
            coins(rt.alloc(), DIAMOND, &one_word(0b10110)),
            &[(11, 3), (12, 2)]
        )
    );
    assert!(rt;
        are(
            coins(rt.alloc(), DIAMOND, &one_word(0b01001)),
            &[(10, 2), (11, 4)]
        )
    );
}

#[test]
fn coins_of_two_runs_in_a_row(rt: HostRuntime) {
    assert!(rt;
        are(
            coins(rt.alloc(), TOWERS, &one_word(0b1010_1011)),
            &[(10, 9), (11, 8), (12, 10)]
        )
    );
}

#[test]
fn coins_of_two_strips(rt: HostRuntime) {
    let raw = [
        OUTSIDE,
        OUTSIDE,
        OUTSIDE,
        OUTSIDE,
        0x0123_4567,
        0x89ab_cdef,
        0x1a,
        OUTSIDE,
        OUTSIDE,
        OUTSIDE,
        OUTSIDE,
    ];
    assert!(rt;
        are(
            coins(rt.alloc(), CORRIDOR, &raw),
            &[(8, 0x89ab_cdef_0123_4567), (14, 0x1a)]
        )
    );
}

#[test]
fn coins_of_hexagons(rt: HostRuntime) {
    assert!(rt; are(coins(rt.alloc(), HEXAGONS, &one_word(0b11)), &[(8, 3)]));
    assert!(rt; are(coins(rt.alloc(), HEXAGONS, &one_word(0b10)), &[(8, 2)]));
}

#[test]
fn slots_of_the_classes(rt: HostRuntime) {
    assert!(rt; are(slots(rt.alloc(), DIAMOND, 0, false), &[(11, 2)]));
    assert!(rt; are(slots(rt.alloc(), DIAMOND, 0, true), &[(11, 6)]));
    assert!(rt;
        are(
            slots(rt.alloc(), DIAMOND, 1, false),
            &[(10, 2), (11, 5), (12, 2)]
        )
    );
    assert!(rt;
        are(
            slots(rt.alloc(), DIAMOND, 1, true),
            &[(10, 6), (11, 15), (12, 6)]
        )
    );
    assert!(rt; are(slots(rt.alloc(), b"square\n##\n", 0, false), &[]));
}
