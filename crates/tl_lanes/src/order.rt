//! The lesser and the greater of two rows, place by place.

ghost use Rattle.std.specs.Prelude.{◌≡◌, length};
ghost use Rattle.std.specs.Simd.Lanes.{zip2};
ghost use Rattle.tl_lanes.specs.Lanes.{greater, lesser};

use crate::{LANES, load};
use std::simd::prelude::*;

/// Each `a[j]` becomes the lesser of `a[j]` and `b[j]`.
#[inline]
pub fn lanes_least(a: &mut [i32], b: &[i32])
    requires { length a.old ≡ length b.now }
    ensures { a.new ≡ zip2 lesser a.old b.now }
{
    let mut done = 0;
    'vectors: while a.len() - done >= LANES {
        least_of_block(&mut a[done..done + LANES], &b[done..done + LANES]);
        done += LANES;
    }
    least_of_rest(&mut a[done..], &b[done..]);
}

/// Each `a[j]` becomes the greater of `a[j]` and `b[j]`.
#[inline]
pub fn lanes_greatest(a: &mut [i32], b: &[i32])
    requires { length a.old ≡ length b.now }
    ensures { a.new ≡ zip2 greater a.old b.now }
{
    let mut done = 0;
    'vectors: while a.len() - done >= LANES {
        greatest_of_block(&mut a[done..done + LANES], &b[done..done + LANES]);
        done += LANES;
    }
    greatest_of_rest(&mut a[done..], &b[done..]);
}

#[inline]
fn least_of_block(a: &mut [i32], b: &[i32])
    requires block_a { length a.old ≡ 4 }
    requires block_b { length b.now ≡ 4 }
    ensures { a.new ≡ zip2 lesser a.old b.now }
{
    let left = load(a);
    let right = load(b);
    left.simd_lt(right).select(left, right).copy_to_slice(a);
}

#[inline]
fn greatest_of_block(a: &mut [i32], b: &[i32])
    requires block_a { length a.old ≡ 4 }
    requires block_b { length b.now ≡ 4 }
    ensures { a.new ≡ zip2 greater a.old b.now }
{
    let left = load(a);
    let right = load(b);
    left.simd_lt(right).select(right, left).copy_to_slice(a);
}

#[inline]
fn least_of_rest(a: &mut [i32], b: &[i32])
    requires { length a.old ≡ length b.now }
    ensures { a.new ≡ zip2 lesser a.old b.now }
{
    for i in 0..a.len() {
        a[i] = a[i].min(b[i]);
    }
}

#[inline]
fn greatest_of_rest(a: &mut [i32], b: &[i32])
    requires { length a.old ≡ length b.now }
    ensures { a.new ≡ zip2 greater a.old b.now }
{
    for i in 0..a.len() {
        a[i] = a[i].max(b[i]);
    }
}
