//! Coins of small regions, laid out from kept words and from others.

ghost use Rattle.std.specs.Prelude.{◌≡◌, ◌≤◌, ◌^◌, length, IfSome};

use crate::{KEPT_LIMIT, Kept};
use std::alloc::Global;
use tl_bits::{Bits, Listed};
use tl_formats::INPUT_LIMIT;
use tl_layout::{Layout, Pieces};
use tl_region::read_region;

// The Aztec diamond of order 2. Its inner corners have the bits 1 of word 10, 0, 1 and 2 of word 11, and 1 of word 12.
const DIAMOND: &[u8] = b"square\n.##\n####\n####\n.##\n";

// A row of 69 inner corners, which have the bits of word 8 and the first five of word 14.
const CORRIDOR: &[u8] =
    b"square\n######################################################################\n######################################################################\n";

fn pieces_of(alloc: Global, text: &[u8]) -> Option<Pieces>
    requires { length text.now ≤ INPUT_LIMIT }
{
    let (region, _) = read_region(alloc, text).ok()?;
    Pieces::of(alloc, &region, &Layout::of(&region)).ok()
}

fn listed(alloc: Global, words: u32, list: &[u32]) -> Option<Listed>
    ensures { IfSome result (λ bits. bits.words ≡ words) }
{
    let mut all = Vec::new(alloc);
    all.extend_from_slice(list).ok()?;
    Some(Listed::new(words, all))
}

// The words of the coins of a time that are not 0, with their places.
fn coins<B: Bits>(
    alloc: Global,
    kept: &mut Kept<B>,
    pieces: &Pieces,
    time: u64,
) -> Option<Vec<(usize, u64)>>
    requires first_time { 1 ≤ time }
    requires last_time { time ≤ 2 ^ 30 }
    requires words { pieces.now.words ≡ B.words kept.old.bits }
    ensures { B.words kept.new.bits ≡ B.words kept.old.bits }
{
    let mut coins = vec![in alloc; 0u64; pieces.size].ok()?;
    kept.lay_out(pieces, time, coins.as_mut_slice());
    let mut some = Vec::new(alloc);
    for (place, word) in coins.iter().enumerate() {
        if *word != 0 {
            some.push((place, *word)).ok()?;
        }
    }
    Some(some)
}

// Whether the coins of the times are as told. Before each time is laid out, the times up to another one are kept.
fn are_coins<B: Bits>(
    alloc: Global,
    kept: &mut Kept<B>,
    pieces: &Pieces,
    told: &[(u64, u64, &[(usize, u64)])],
) -> bool
    requires { pieces.now.words ≡ B.words kept.old.bits }
    ensures { B.words kept.new.bits ≡ B.words kept.old.bits }
{
    for &(last, time, wanted) in told {
        if last > 1 << 30 || time < 1 || time > 1 << 30 {
            return false;
        }
        kept.keep(last);
        match coins(alloc, kept, pieces, time) {
            Some(found) if found.as_slice() == wanted => {}
            _ => return false,
        }
    }
    true
}

// The same for these words, and then for others, which are set in their place.
fn are_laid_out(
    alloc: Global,
    text: &[u8],
    list: &[u32],
    told: &[(u64, u64, &[(usize, u64)])],
    others: &[u32],
    told_then: &[(u64, u64, &[(usize, u64)])],
) -> Option<bool>
    requires { length text.now ≤ INPUT_LIMIT }
{
    let pieces = pieces_of(alloc, text)?;
    if pieces.words > 1 << 15 {
        return None;
    }
    let words = pieces.words as u32;
    let mut kept = Kept::new(alloc, listed(alloc, words, list)?, words).ok()?;
    let first = are_coins(alloc, &mut kept, &pieces, told);
    kept.set_bits(listed(alloc, words, others)?);
    let then = are_coins(alloc, &mut kept, &pieces, told_then);
    Some(first && then)
}

#[test]
fn coins_of_a_diamond(rt: HostRuntime) {
    let told: [(u64, u64, &[(usize, u64)]); 9] = [
        (0, 1, &[(11, 3), (12, 2)]),
        (0, 3, &[(11, 2)]),
        (2, 1, &[(11, 3), (12, 2)]),
        (2, 2, &[(10, 2), (11, 4)]),
        (2, 3, &[(11, 2)]),
        (1, 2, &[(10, 2), (11, 4)]),
        (5, 4, &[(10, 2), (12, 2)]),
        (5, 1, &[(11, 3), (12, 2)]),
        (5, 6, &[]),
    ];
    let told_then: [(u64, u64, &[(usize, u64)]); 3] = [
        (0, 1, &[(11, 4)]),
        (2, 1, &[(11, 4)]),
        (2, 2, &[(11, 1)]),
    ];
    let laid = are_laid_out(
        rt.alloc(),
        DIAMOND,
        &[0b10110, 0b01001, 0b00100, 0b10001],
        &told,
        &[0b01000, 0b00010],
        &told_then,
    );
    assert!(rt; laid == Some(true));
}

#[test]
fn coins_of_two_strips(rt: HostRuntime) {
    let told: [(u64, u64, &[(usize, u64)]); 4] = [
        (0, 1, &[(8, 0x89ab_cdef_0123_4567), (14, 0x1a)]),
        (0, 2, &[(8, 0xfedc_ba98_7654_3210), (14, 0x05)]),
        (2, 2, &[(8, 0xfedc_ba98_7654_3210), (14, 0x05)]),
        (2, 1, &[(8, 0x89ab_cdef_0123_4567), (14, 0x1a)]),
    ];
    let laid = are_laid_out(
        rt.alloc(),
        CORRIDOR,
        &[
            0x0123_4567,
            0x89ab_cdef,
            0x1a,
            0x7654_3210,
            0xfedc_ba98,
            0x05,
        ],
        &told,
        &[],
        &[],
    );
    assert!(rt; laid == Some(true));
}

// Only zeros, one to each time, with a count of those that were computed.
#[derive(Drop)]
struct Zeros {
    computed: usize,
}

impl Bits for Zeros {
    ghost words = { λ _. 1 };

    ghost word_at = { λ _ _ _. 0 };

    fn word(&mut self, _time: u64, _w: u32) -> u32 {
        self.computed = self.computed.wrapping_add(1);
        0
    }
}

// How many words were computed after these steps.
fn computed(alloc: Global, told: &[(u64, u64, &[(usize, u64)])]) -> Option<usize> {
    let pieces = pieces_of(alloc, DIAMOND)?;
    if pieces.words != 1 {
        return None;
    }
    let mut kept = Kept::new(alloc, Zeros { computed: 0 }, 1).ok()?;
    if are_coins(alloc, &mut kept, &pieces, told) {
        Some(kept.bits.computed)
    } else {
        None
    }
}

#[test]
fn no_word_is_computed_twice(rt: HostRuntime) {
    let kept: [(u64, u64, &[(usize, u64)]); 5] = [
        (3, 1, &[]),
        (3, 3, &[]),
        (2, 2, &[]),
        (4, 4, &[]),
        (0, 1, &[]),
    ];
    assert!(rt; computed(rt.alloc(), &kept) == Some(4));
    let not_kept: [(u64, u64, &[(usize, u64)]); 2] = [(1, 2, &[]), (1, 2, &[])];
    assert!(rt; computed(rt.alloc(), &not_kept) == Some(3));
}

#[test]
fn words_are_kept_as_far_as_there_is_room(rt: HostRuntime) {
    let told: [(u64, u64, &[(usize, u64)]); 2] = [(1 << 30, 1, &[]), (1 << 30, 1 << 22, &[])];
    assert!(rt; computed(rt.alloc(), &told) == Some(KEPT_LIMIT));
}
