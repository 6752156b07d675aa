//! Sweeps: the steps at the inner corners of a region, class by class, on the heights of a tiling.
#![tactic(auto)]

ghost use Rattle.std.specs.Prelude.{◌≡◌, ◌<◌, List, length, slice_get, Some, IsTrue};
ghost use Rattle.tl_definitions.specs.declared.Corner.{Corner};
ghost use Rattle.tl_definitions.specs.declared.Tile.{Tile};
ghost use Rattle.tl_definitions.specs.Lattice.{classes};
ghost use Rattle.tl_definitions.specs.Region.{inner_corners};
ghost use Rattle.tl_definitions.specs.Tiling.{is_tiling};
ghost use Rattle.tl_definitions.specs.Heights.{AreHeights};
ghost use Rattle.tl_definitions.specs.Sweep.{step, sweep as swept_tiling, sweep_class as class_swept_tiling};
ghost use Rattle.tl_steps.specs.Stepping.{AreStepped, AreSwept, is_of_class};
ghost use Rattle.tl_sweep.specs.Sweeps.{AreWhollySwept, bit_in, HasWordsFor};

mod blocks;
mod squares;
mod steps;
#[cfg(test)]
mod tests;
mod triangles;

use blocks::next_block;
use steps::{step_block, stepped};
use tl_height::Heights;
use tl_lattice::{Kind, cell_width};

/// Makes the step at the inner corner of this number, in raster order from 0. Bit 1 puts the greatest lawful height there,
/// bit 0 the least.
pub fn update(heights: &mut Heights, i: u32, bit: bool)
    requires number { i < length (inner_corners heights.old.region) }
    ensures region { heights.new.region ≡ heights.old.region }
    ensures stepped { (v : Corner) → slice_get (inner_corners heights.old.region) i ≡ Some v
        → AreStepped heights.old.region heights.old.numbers heights.new.numbers v bit }
    ensures tiling { (A : List Tile) (v : Corner) → IsTrue (is_tiling heights.old.region A)
        → AreHeights heights.old.region A heights.old.numbers
        → slice_get (inner_corners heights.old.region) i ≡ Some v
        → AreHeights heights.old.region (step heights.old.region A v bit) heights.new.numbers }
{
    let region = heights.region();
    let corner = region.inner(i);
    let height = stepped(heights, corner, bit);
    let width = region.columns() as usize + 2;
    heights.put(corner.r as usize * width + corner.x as usize, &[height]);
}

/// Makes the step at every inner corner of a class: at that of number i, in raster order from 0, with bit i mod 32 of
/// `words[i / 32]`. Bit 0 is the lowest.
pub fn sweep_class(heights: &mut Heights, class: u8, words: &[u32])
    requires class { class < classes heights.old.region.kind }
    requires words { HasWordsFor heights.old.region words.now }
    ensures region { heights.new.region ≡ heights.old.region }
    ensures swept { AreSwept heights.old.region heights.old.numbers heights.new.numbers (bit_in words.now)
        (is_of_class heights.old.region class) }
    ensures tiling { (A : List Tile) → IsTrue (is_tiling heights.old.region A)
        → AreHeights heights.old.region A heights.old.numbers
        → AreHeights heights.old.region (class_swept_tiling heights.old.region (bit_in words.now) class A)
        heights.new.numbers }
{
    let region = heights.region();
    let places = region.inner_places();
    let stride = cell_width(region.kind()) as usize;
    let mut number = 0;
    'rest: while number < places.len() {
        let block = next_block(places, number, stride);
        step_block(heights, class, words, block);
        number += block.count;
    }
}

/// Sweeps all classes, one after the other from class 0 on, with the same words.
pub fn sweep(heights: &mut Heights, words: &[u32])
    requires words { HasWordsFor heights.old.region words.now }
    ensures region { heights.new.region ≡ heights.old.region }
    ensures swept { AreWhollySwept heights.old.region (bit_in words.now) heights.old.numbers heights.new.numbers }
    ensures tiling { (A : List Tile) → IsTrue (is_tiling heights.old.region A)
        → AreHeights heights.old.region A heights.old.numbers
        → AreHeights heights.old.region (swept_tiling heights.old.region (bit_in words.now) A) heights.new.numbers }
{
    sweep_class(heights, 0, words);
    sweep_class(heights, 1, words);
    match heights.region().kind() {
        Kind::Square => {}
        Kind::Triangle => sweep_class(heights, 2, words),
    }
}
