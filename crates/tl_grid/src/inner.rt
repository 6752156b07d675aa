//! The inner corners of a region, by their places among all corner places.

ghost use Rattle.std.specs.Prelude.{◌≡◌, ◌<◌, length, slice_get, position, Some};
ghost use Rattle.tl_definitions.specs.Lattice.{corner_eq};
ghost use Rattle.tl_definitions.specs.Region.{inner_corners, is_inner as is_inner_corner};
ghost use Rattle.tl_grid.specs.Survey.{inner_places};

use crate::grid::Grid;
use crate::rings::{darts, is_corner, is_inside};
use tl_lattice::Corner;

/// The inner corner of this number, in raster order from 0.
pub fn inner_corner(grid: &Grid, places: &[u32], i: u32) -> Corner
    requires places { places.now ≡ inner_places grid.now }
    requires number { i < length (inner_corners grid.now) }
    ensures { slice_get (inner_corners grid.now) i ≡ Some result }
{
    let width = grid.columns() + 2;
    let place = places[i as usize];
    Corner {
        r: place / width,
        x: place % width,
    }
}

/// The number of the corner, if it is an inner one. Any pair may be asked for.
pub fn number_of(grid: &Grid, places: &[u32], corner: Corner) -> Option<u32>
    requires { places.now ≡ inner_places grid.now }
    ensures { result ≡ position (corner_eq corner) (inner_corners grid.now) }
{
    if corner.r > grid.rows() || corner.x >= grid.columns() + 2 {
        return None;
    }
    let place = grid.corner_place(corner) as u32;
    match places.binary_search(&place) {
        Ok(number) => Some(number as u32),
        Err(_) => None,
    }
}

/// Whether the whole ring of the corner is in the grid. Any pair may be asked for.
pub fn is_inner(grid: &Grid, corner: Corner) -> bool
    ensures { result ≡ is_inner_corner grid.now corner }
{
    is_corner(grid.kind(), corner)
        && darts(grid.kind())
            .iter()
            .all(|dart| is_inside(grid, corner, dart.left))
}
