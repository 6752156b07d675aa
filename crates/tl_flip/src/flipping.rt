//! Flips that are made.

ghost use Rattle.std.specs.Prelude.{◌≡◌, List, true, false, IsTrue, IsFalse};
ghost use Rattle.tl_definitions.specs.declared.Corner.{Corner};
ghost use Rattle.tl_definitions.specs.declared.Tile.{Tile};
ghost use Rattle.tl_definitions.specs.Lattice.{corner_eq};
ghost use Rattle.tl_definitions.specs.Region.{is_corner_of};
ghost use Rattle.tl_definitions.specs.Heights.{height};
ghost use Rattle.tl_definitions.specs.Flip.{can_flip, flip};
ghost use Rattle.tl_flip.specs.Flips.{IsTilingOf, IsWalk};

use tl_height::Heights;
use tl_lattice::Corner;

/// Flips the corner, and tells whether that was lawful: whether it is an inner corner and the tiling stands high or low
/// at it. If not, nothing changes. Any pair may be asked for.
pub fn flip_at(heights: &mut Heights, corner: Corner) -> bool
    ensures region { heights.new.region ≡ heights.old.region }
    ensures lawful { (A : List Tile) → IsTilingOf heights.old.region heights.old.numbers A
        → result ≡ can_flip heights.old.region A corner }
    ensures flipped { result ≡ true → (A : List Tile) → IsTilingOf heights.old.region heights.old.numbers A
        → IsTilingOf heights.old.region heights.new.numbers (flip heights.old.region A corner) }
    ensures elsewhere { (v : Corner) → IsTrue (is_corner_of heights.old.region v) → IsFalse (corner_eq v corner)
        → height heights.old.region heights.new.numbers v ≡ height heights.old.region heights.old.numbers v }
    ensures stays { result ≡ false → heights.new ≡ heights.old }
{
    if !heights.region().is_inner(corner) {
        return false;
    }
    if heights.rising_to(corner).is_none() {
        heights.raise(corner);
    } else if heights.rising_from(corner).is_none() {
        heights.lower(corner);
    } else {
        return false;
    }
    true
}

/// Makes the flips in turn. None where each was lawful, else the number of those that were made: the next wasn't.
pub fn walk(heights: &mut Heights, corners: &[Corner]) -> Option<usize>
    ensures region { heights.new.region ≡ heights.old.region }
    ensures walk { IsWalk heights.old.region heights.old.numbers heights.new.numbers corners.now result }
{
    for (k, corner) in corners.iter().enumerate() {
        if !flip_at(heights, *corner) {
            return Some(k);
        }
    }
    None
}
