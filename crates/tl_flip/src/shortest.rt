//! Shortest flip paths.

ghost use Rattle.std.specs.Prelude.{◌≡◌, ◌≤◌, length, IfOk, IfErr};
ghost use Rattle.tl_flip.specs.Flips.{IsDistanceBetween, IsPathFault, IsShortestBetween};

use crate::approach::approach;
use crate::direction::Direction;
use crate::fault::PathFault;
use crate::gap::distance;
use std::alloc::{AllocError, Global};
use tl_height::Heights;
use tl_lattice::Corner;

/// The most flips that a path has.
pub const FLIP_LIMIT: u64 = 1 << 20;

/// A shortest flip path from one tiling to the other. Both are of one region.
///
/// # Errors
/// `TooLong` exactly where the distance is over `FLIP_LIMIT`, with the distance; and want of memory.
pub fn path(alloc: Global, a: &Heights, b: &Heights) -> Result<Vec<Corner>, PathFault>
    requires { a.now.region ≡ b.now.region }
    ensures shortest { IfOk result (λ path. IsShortestBetween a.now.region a.now.numbers b.now.numbers path.items) }
    ensures within { IfOk result (λ path. length path.items ≤ FLIP_LIMIT) }
    ensures fault { IfErr result (IsPathFault a.now.region a.now.numbers b.now.numbers) }
{
    let flips = distance(a, b);
    if flips > FLIP_LIMIT {
        return Err(PathFault::TooLong(flips));
    }
    match path_of(alloc, a, b, flips as usize) {
        Ok(path) => Ok(path),
        Err(_) => Err(PathFault::OutOfMemory),
    }
}

// A shortest flip path, of so many flips. It goes up to the greater of the two heights of each corner, and then down.
fn path_of(alloc: Global, a: &Heights, b: &Heights, flips: usize) -> Result<Vec<Corner>, AllocError>
    requires region { a.now.region ≡ b.now.region }
    requires flips { IsDistanceBetween a.now.region a.now.numbers b.now.numbers flips }
    ensures shortest { IfOk result (λ path. IsShortestBetween a.now.region a.now.numbers b.now.numbers path.items) }
    ensures length { IfOk result (λ path. length path.items ≡ flips) }
{
    // the calls tell that both are lawful
    prove!(a.region().kind() == b.region().kind());
    let mut here = a.copy(alloc)?;
    let mut path = Vec::with_capacity(alloc, flips)?;
    approach(alloc, Direction::Up, &mut here, b, &mut path)?;
    approach(alloc, Direction::Down, &mut here, b, &mut path)?;
    Ok(path)
}
