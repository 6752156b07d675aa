//! The number of flips between two tilings.

ghost use Rattle.std.specs.Prelude.{◌≡◌, ◌<◌, ◌^◌, ◌-ℤ◌, unsigned_abs, length};
ghost use Rattle.tl_lawful.specs.HeightGap.{height_gap};
ghost use Rattle.tl_flip.specs.Flips.{IsDistanceBetween};

use tl_height::Heights;
use tl_lattice::rise;

// How far apart two numbers are.
fn apart(x: &i32, y: &i32) -> u64
    ensures apart { result ≡ unsigned_abs (x.now -ℤ y.now) }
    ensures small { result < 2 ^ 32 }
{
    u64::from(x.abs_diff(*y))
}

// The sum of all differences, place by place.
fn gap(a: &[i32], b: &[i32]) -> u64
    requires { length a.now < 2 ^ 31 }
    ensures gap { result ≡ height_gap a.now b.now }
    ensures small { result < 2 ^ 63 }
{
    let mut sum = 0;
    for (x, y) in a.iter().zip(b) {
        sum += apart(x, y);
    }
    sum
}

/// The least number of flips from one tiling to the other. Both are of one region.
///
/// It is the sum of the differences of their heights, over the rise of a flip.
pub fn distance(a: &Heights, b: &Heights) -> u64
    requires { a.now.region ≡ b.now.region }
    ensures distance { IsDistanceBetween a.now.region a.now.numbers b.now.numbers result }
    ensures small { result < 2 ^ 63 }
{
    let region = a.region();
    let numbers = a.numbers();
    // the region's calls tell that it is accepted and has few corners
    prove!(numbers.len() == (region.rows() as usize + 1) * (region.columns() as usize + 2));
    gap(numbers, b.numbers()) / rise(region.kind()) as u64
}
