//! Kernels on rows of heights: the lesser and the greater of two rows place by place, and a choice of two rows by bits.
//! Four places at a time are one vector.
#![tactic(auto)]

ghost use Rattle.std.specs.Prelude.{◌≡◌, length, FitsSigned};
ghost use Rattle.std.specs.Int.{w32};
ghost use Rattle.std.specs.Simd.Lanes.{Each1};

mod blend;
mod order;
mod step;
#[cfg(test)]
mod tests;

pub use blend::lanes_blend;
pub use order::{lanes_greatest, lanes_least};
use std::simd::prelude::*;
pub use step::{Beside, lanes_step};

// The places of one vector.
const LANES: usize = 4;

// Read one by one, so that it is known that each fits.
#[inline]
fn load(block: &[i32]) -> i32x4
    requires { length block.now ≡ 4 }
    ensures same { result ≡ block.now }
    ensures fits { Each1 (FitsSigned w32) result }
{
    i32x4::from_array([block[0], block[1], block[2], block[3]])
}
