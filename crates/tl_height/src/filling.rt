//! The heights of a tiling: those on the circuit, and then those of the inner corners in raster order.

ghost use Rattle.std.specs.Prelude.{◌≡◌, ◌+◌, ◌-◌, ◌<◌, List, ℕ, ℤ, Some, length, slice_get, pos, negsuc, ◌+ℤ◌, ◌≤ℤ◌, IfOk, IsTrue, IsFalse};
ghost use Rattle.std.specs.List.{list_any};
ghost use Rattle.tl_definitions.specs.declared.Corner.{Corner};
ghost use Rattle.tl_definitions.specs.Lattice.{corner as corner_of, corner_eq, cell_width as width_of};
ghost use Rattle.tl_definitions.specs.Region.{is_inner};
ghost use Rattle.tl_definitions.specs.Accepted.{Accepted, IsCircuit, circuit_corners};
ghost use Rattle.tl_definitions.specs.Heights.{height as height_of, height_count, AreHeights, AreLawful};
ghost use Rattle.tl_definitions.specs.Obstruction.{prefix};

use crate::heights::Heights;
use std::alloc::{AllocError, Global};
use tl_boundary::Circuit;
use tl_lattice::{Cell, Corner, Kind, cell_width, rise};
use tl_region::Region;
use tl_tiling::Tiling;

/// The heights of the tiling: 0 at the first corner of the circuit, and along a directed step 1 more where no tile
/// crosses the edge, and 3 less, or 2 less on the triangular lattice, where one does. The circuit and the tiling are of
/// this region.
///
/// Heights after W. P. Thurston, "Conway's Tiling Groups".
///
/// # Errors
/// Want of memory.
pub fn of_tiling<'a>(
    alloc: Global,
    region: &'a Region,
    circuit: &Circuit,
    tiling: &Tiling,
) -> Result<Heights<'a>, AllocError>
    requires circuit { IsCircuit region.now circuit.now }
    requires tiling { tiling.now.region ≡ region.now }
    ensures region { IfOk result (λ heights. heights.region ≡ region.now) }
    ensures heights { IfOk result (λ heights. AreHeights region.now tiling.now.tiles heights.numbers) }
{
    let numbers = fill(alloc, circuit, tiling)?;
    Ok(Heights::of_numbers(region, numbers))
}

// The numbers of the heights of the tiling, row by row.
fn fill(alloc: Global, circuit: &Circuit, tiling: &Tiling) -> Result<Vec<i32>, AllocError>
    requires { IsCircuit tiling.now.region circuit.now }
    ensures heights { IfOk result (λ numbers. AreHeights tiling.now.region tiling.now.tiles numbers.items) }
    ensures lawful { IfOk result (λ numbers. AreLawful tiling.now.region numbers.items) }
{
    let region = tiling.region();
    let width = region.columns() as usize + 2;
    let back = cell_width(region.kind()) as usize;
    let mut numbers = boundary_numbers(alloc, region, circuit)?;
    // the left neighbour is on the boundary, or an inner corner of a lower number
    for i in 0..region.inner_count() {
        let corner = region.inner(i);
        let place = corner.r as usize * width + corner.x as usize;
        numbers[place] = numbers[place - back] + rise_from_left(tiling, corner);
    }
    Ok(numbers)
}

// The circuit's prefixes at the places of its corners, and 0 at all other places.
fn boundary_numbers(
    alloc: Global,
    region: &Region,
    circuit: &Circuit,
) -> Result<Vec<i32>, AllocError>
    requires { IsCircuit region.now circuit.now }
    ensures count { IfOk result (λ numbers. length numbers.items ≡ height_count region.now) }
    ensures boundary { IfOk result (λ numbers. (k : ℕ) (v : Corner)
        → slice_get (circuit_corners circuit.now) k ≡ Some v
        → height_of region.now numbers.items v ≡ prefix circuit.now k) }
    ensures elsewhere { IfOk result (λ numbers. (v : Corner) → v.x < region.now.columns + 2
        → IsFalse (list_any (corner_eq v) (circuit_corners circuit.now))
        → height_of region.now numbers.items v ≡ pos 0) }
    ensures accepted { Accepted region.now }
{
    let width = region.columns() as usize + 2;
    let mut numbers = vec![in alloc; 0; (region.rows() as usize + 1) * width]?;
    for k in 0..circuit.len() {
        let corner = circuit.corner(k);
        let place = corner.r as usize * width + corner.x as usize;
        numbers[place] = circuit.prefix(k) as i32;
    }
    Ok(numbers)
}

// The height of an inner corner less that of its left neighbour. The cells above and below the edge between them are
// in the region.
fn rise_from_left(tiling: &Tiling, corner: Corner) -> i32
    requires { IsTrue (is_inner tiling.now.region corner) }
    ensures rise { (numbers : List ℤ) → AreHeights tiling.now.region tiling.now.tiles numbers
        → height_of tiling.now.region numbers corner
        ≡ height_of tiling.now.region numbers
        (corner_of corner.r (corner.x - width_of tiling.now.region.kind)) +ℤ result }
    ensures low { negsuc 3 ≤ℤ result }
    ensures high { result ≤ℤ pos 3 }
{
    let kind = tiling.region().kind();
    let width = cell_width(kind);
    let leads_right = match kind {
        Kind::Square => corner.r % 2 == corner.x % 2,
        Kind::Triangle => true,
    };
    let upper = Cell {
        r: corner.r - 1,
        c: corner.x - width,
    };
    let lower = Cell {
        r: corner.r,
        c: corner.x - width,
    };
    let climb = if tiling.partner(upper) == lower {
        1 - rise(kind)
    } else {
        1
    };
    if leads_right { climb } else { -climb }
}
