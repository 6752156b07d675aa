//! Steps on either lattice.

ghost use Rattle.std.specs.Prelude.{◌≡◌, ◌+◌, ◌<◌, IsTrue};
ghost use Rattle.tl_definitions.specs.Lattice.{classes};
ghost use Rattle.tl_definitions.specs.Region.{is_inner};
ghost use Rattle.tl_steps.specs.Stepping.{AreSwept, stepped_height};
ghost use Rattle.tl_sweep.specs.Blocks.{IsBlock, is_between};
ghost use Rattle.tl_sweep.specs.Sweeps.{bit_in};

use crate::blocks::Block;
use crate::squares::{square_height, step_squares};
use crate::triangles::{step_triangles, triangle_height};
use tl_height::Heights;
use tl_lattice::{Corner, Kind};

/// What the step puts at an inner corner.
pub fn stepped(heights: &Heights, corner: Corner, bit: bool) -> i32
    requires { IsTrue (is_inner heights.now.region corner) }
    ensures { result ≡ stepped_height heights.now.region heights.now.numbers corner bit }
{
    let numbers = heights.numbers();
    let width = heights.region().columns() as usize + 2;
    let place = corner.r as usize * width + corner.x as usize;
    match heights.region().kind() {
        Kind::Square => {
            square_height(numbers, width, place, (corner.r + corner.x) % 2 == 0, bit)
        }
        Kind::Triangle => triangle_height(numbers, width, place, bit),
    }
}

/// The steps at the corners of a block that are of the class.
#[inline]
pub fn step_block(heights: &mut Heights, class: u8, words: &[u32], block: Block)
    requires class { class < classes heights.old.region.kind }
    requires block { IsBlock heights.old.region block.number block.place block.count }
    ensures region { heights.new.region ≡ heights.old.region }
    ensures swept { AreSwept heights.old.region heights.old.numbers heights.new.numbers (bit_in words.now)
        (is_between heights.old.region class block.number (block.number + block.count)) }
{
    match heights.region().kind() {
        Kind::Square => step_squares(heights, class, words, block),
        Kind::Triangle => step_triangles(heights, class, words, block),
    }
}
