//! A choice of two rows by bits.

ghost use Rattle.std.specs.Prelude.{◌≡◌, ◌≤◌, ◌<◌, ◌*◌, ◌%◌, ◌==◌, if◌then◌else◌, ℕ, pos, length, slice_index_or};
ghost use Rattle.tl_lanes.specs.Lanes.{by_bit, chosen};

use crate::{LANES, load};
use std::simd::prelude::*;

// The places of one word of bits.
const PLACES: usize = 32;

/// `out[j]` becomes `high[j]` where bit `j mod 32` of `bits[j / 32]` is 1, else `low[j]`. Bit 0 is the lowest.
#[inline]
pub fn lanes_blend(out: &mut [i32], low: &[i32], high: &[i32], bits: &[u32])
    requires low_length { length low.now ≡ length out.old }
    requires high_length { length high.now ≡ length out.old }
    requires enough_bits { length out.old ≤ 32 * length bits.now }
    ensures len { length out.new ≡ length out.old }
    ensures each { (j : ℕ) → j < length out.old → slice_index_or out.new j (pos 0) ≡ chosen low.now high.now bits.now j }
{
    let mut done = 0;
    'words: while out.len() - done >= PLACES {
        blend_word(
            &mut out[done..done + PLACES],
            &low[done..done + PLACES],
            &high[done..done + PLACES],
            bits[done / PLACES],
        );
        done += PLACES;
    }
    if done < out.len() {
        blend_word(
            &mut out[done..],
            &low[done..],
            &high[done..],
            bits[done / PLACES],
        );
    }
}

#[inline]
fn blend_word(out: &mut [i32], low: &[i32], high: &[i32], word: u32)
    requires low_length { length low.now ≡ length out.old }
    requires high_length { length high.now ≡ length out.old }
    requires in_word { length out.old ≤ 32 }
    ensures { (j : ℕ) → j < length out.old → slice_index_or out.new j (pos 0) ≡ by_bit low.now high.now word j }
{
    let mut done = 0;
    'vectors: while out.len() - done >= LANES {
        blend_block(
            &mut out[done..done + LANES],
            &low[done..done + LANES],
            &high[done..done + LANES],
            word >> done,
        );
        done += LANES;
    }
    for place in done..out.len() {
        out[place] = choose(low[place], high[place], word >> place);
    }
}

#[inline]
fn blend_block(out: &mut [i32], low: &[i32], high: &[i32], bits: u32)
    requires out_block { length out.old ≡ 4 }
    requires low_block { length low.now ≡ 4 }
    requires high_block { length high.now ≡ 4 }
    ensures { (j : ℕ) → j < 4 → slice_index_or out.new j (pos 0) ≡ by_bit low.now high.now bits j }
{
    let of_places = u32x4::splat(bits) & u32x4::from_array([1, 2, 4, 8]);
    of_places
        .simd_ne(u32x4::splat(0))
        .select(load(high), load(low))
        .copy_to_slice(out);
}

// By the lowest bit.
#[inline]
pub(crate) fn choose(low: i32, high: i32, bits: u32) -> i32
    ensures { result ≡ (if bits % 2 == 1 then high else low) }
{
    if bits & 1 == 1 { high } else { low }
}
