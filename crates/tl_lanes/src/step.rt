//! Steps at places of a row.

ghost use Rattle.std.specs.Prelude.{◌≡◌, ◌≤◌, ◌<◌, ◌+ℤ◌, ◌-ℤ◌, All, FitsSigned, ℕ, pos, length, slice_index_or};
ghost use Rattle.std.specs.Int.{w32};
ghost use Rattle.std.specs.Simd.Lanes.{Each1, zip2};
ghost use Rattle.tl_lanes.specs.Lanes.{AreBeside, by_bit, over, step_or_old, under};

use crate::blend::choose;
use crate::{LANES, load};
use std::simd::prelude::*;

/// The heights beside the places of a row: at each place of those two from which a step comes, and of those two to which a
/// step goes.
#[derive(Clone, Copy)]
pub struct Beside<'a> {
    pub from: &'a [i32],
    pub from_other: &'a [i32],
    pub to: &'a [i32],
    pub to_other: &'a [i32],
}

// One more than the lesser of two rows of four.
#[inline]
fn over_lesser(from: &[i32], from_other: &[i32]) -> i32x4
    requires from { length from.now ≡ 4 }
    requires from_other { length from_other.now ≡ 4 }
    requires from_fits { All (λ z. FitsSigned w32 (z +ℤ pos 1)) from.now }
    requires from_other_fits { All (λ z. FitsSigned w32 (z +ℤ pos 1)) from_other.now }
    ensures value { result ≡ zip2 over from.now from_other.now }
    ensures fits { Each1 (FitsSigned w32) result }
{
    let left = load(from);
    let right = load(from_other);
    left.simd_lt(right)
        .select(left, right)
        .strict_add(i32x4::splat(1))
}

// One less than the greater of two rows of four.
#[inline]
fn under_greater(to: &[i32], to_other: &[i32]) -> i32x4
    requires to { length to.now ≡ 4 }
    requires to_other { length to_other.now ≡ 4 }
    requires to_fits { All (λ z. FitsSigned w32 (z -ℤ pos 1)) to.now }
    requires to_other_fits { All (λ z. FitsSigned w32 (z -ℤ pos 1)) to_other.now }
    ensures value { result ≡ zip2 under to.now to_other.now }
    ensures fits { Each1 (FitsSigned w32) result }
{
    let left = load(to);
    let right = load(to_other);
    left.simd_lt(right)
        .select(right, left)
        .strict_sub(i32x4::splat(1))
}

// The lanes of `high` where the bits are 1, those of `low` where they are 0.
#[inline]
fn by_bits(bits: u32, low: i32x4, high: i32x4) -> i32x4
    requires low { Each1 (FitsSigned w32) low }
    requires high { Each1 (FitsSigned w32) high }
    ensures each { (j : ℕ) → j < 4 → slice_index_or result j (pos 0) ≡ by_bit low high bits j }
    ensures fits { Each1 (FitsSigned w32) result }
{
    let of_places = u32x4::splat(bits) & u32x4::from_array([1, 2, 4, 8]);
    of_places.simd_ne(u32x4::splat(0)).select(high, low)
}

// Steps at the four places of a vector.
#[inline]
fn step_block(out: &mut [i32], old: &[i32], beside: &Beside, bits: u32, class: u32)
    requires out { length out.old ≡ 4 }
    requires old { length old.now ≡ 4 }
    requires beside { AreBeside 4 beside.now.from.now beside.now.from_other.now beside.now.to.now beside.now.to_other.now }
    ensures { (j : ℕ) → j < 4 → slice_index_or out.new j (pos 0)
        ≡ step_or_old old.now beside.now.from.now beside.now.from_other.now beside.now.to.now beside.now.to_other.now bits class j }
{
    let high = over_lesser(beside.from, beside.from_other);
    let low = under_greater(beside.to, beside.to_other);
    by_bits(class, load(old), by_bits(bits, low, high)).copy_to_slice(out);
}

// One more than the lesser.
#[inline]
fn one_over(left: i32, right: i32) -> i32
    requires left { FitsSigned w32 (left +ℤ pos 1) }
    requires right { FitsSigned w32 (right +ℤ pos 1) }
    ensures { result ≡ over left right }
{
    left.min(right) + 1
}

// One less than the greater.
#[inline]
fn one_under(left: i32, right: i32) -> i32
    requires left { FitsSigned w32 (left -ℤ pos 1) }
    requires right { FitsSigned w32 (right -ℤ pos 1) }
    ensures { result ≡ under left right }
{
    left.max(right) - 1
}

// The height of one place.
#[inline]
fn step_place(old: &[i32], beside: &Beside, bits: u32, class: u32, place: usize) -> i32
    requires in_word { place < 32 }
    requires within { place < length old.now }
    requires beside { AreBeside (length old.now) beside.now.from.now beside.now.from_other.now beside.now.to.now beside.now.to_other.now }
    ensures { result
        ≡ step_or_old old.now beside.now.from.now beside.now.from_other.now beside.now.to.now beside.now.to_other.now bits class place }
{
    let high = one_over(beside.from[place], beside.from_other[place]);
    let low = one_under(beside.to[place], beside.to_other[place]);
    choose(old[place], choose(low, high, bits >> place), class >> place)
}

/// Steps at those places j of a row whose bit j of `class` is 1: there `out[j]` becomes one more than the lesser height from
/// which a step comes, where bit j of `bits` is 1, and one less than the greater to which a step goes, where it is 0.
/// Elsewhere it becomes `old[j]`. A row has at most 32 places.
#[inline]
pub fn lanes_step(out: &mut [i32], old: &[i32], beside: &Beside, bits: u32, class: u32)
    requires in_word { length out.old ≤ 32 }
    requires old { length old.now ≡ length out.old }
    requires from { length beside.now.from.now ≡ length out.old }
    requires from_other { length beside.now.from_other.now ≡ length out.old }
    requires to { length beside.now.to.now ≡ length out.old }
    requires to_other { length beside.now.to_other.now ≡ length out.old }
    requires from_fits { All (λ z. FitsSigned w32 (z +ℤ pos 1)) beside.now.from.now }
    requires from_other_fits { All (λ z. FitsSigned w32 (z +ℤ pos 1)) beside.now.from_other.now }
    requires to_fits { All (λ z. FitsSigned w32 (z -ℤ pos 1)) beside.now.to.now }
    requires to_other_fits { All (λ z. FitsSigned w32 (z -ℤ pos 1)) beside.now.to_other.now }
    ensures len { length out.new ≡ length out.old }
    ensures each { (j : ℕ) → j < length out.old → slice_index_or out.new j (pos 0)
        ≡ step_or_old old.now beside.now.from.now beside.now.from_other.now beside.now.to.now beside.now.to_other.now bits class j }
{
    let mut done = 0;
    'vectors: while out.len() - done >= LANES {
        let part = Beside {
            from: &beside.from[done..done + LANES],
            from_other: &beside.from_other[done..done + LANES],
            to: &beside.to[done..done + LANES],
            to_other: &beside.to_other[done..done + LANES],
        };
        step_block(
            &mut out[done..done + LANES],
            &old[done..done + LANES],
            &part,
            bits >> done,
            class >> done,
        );
        done += LANES;
    }
    for place in done..out.len() {
        out[place] = step_place(old, beside, bits, class, place);
    }
}
