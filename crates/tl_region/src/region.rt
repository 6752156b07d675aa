//! The region type.

ghost use Rattle.std.specs.Prelude.{◌≡◌, ◌<◌, length, map, slice_get, position, Some};
ghost use Rattle.tl_definitions.specs.Accepted.{Accepted, IsCircuit};
ghost use Rattle.tl_definitions.specs.Lattice.{corner_eq};
ghost use Rattle.tl_definitions.specs.Region.{has, row_part, is_step as is_step_of, is_inner as is_inner_corner, inner_corners};
ghost use Rattle.tl_grid.specs.Grid.{IsGrid};
ghost use Rattle.tl_grid.specs.Survey.{inner_places};
ghost use Rattle.tl_grid.specs.Sides.{side_by};

use std::marker::Model;
use tl_grid::{BoundaryStep, Grid, inner_corner, is_inner, is_step, number_of};
use tl_lattice::{Cell, Corner, Kind};

/// An accepted region: finitely many cells of one lattice, at least one, in one piece without pinch and without
/// hole, in at most `SIDE_LIMIT` rows and columns.
#[derive(Drop)]
pub struct Region {
    grid: Grid,
    inner: Vec<u32>,
    boundary: Vec<BoundaryStep>,
}

impl Model for Region {
    ghost use Rattle.std.specs.Prelude.{◌≡◌, map};
    ghost use Rattle.tl_definitions.specs.Region as shape;
    ghost use Rattle.tl_grid.specs.Grid.{IsGrid};
    ghost use Rattle.tl_grid.specs.Survey.{inner_places};
    ghost use Rattle.tl_grid.specs.Sides.{side_by};
    ghost use Rattle.tl_definitions.specs.Accepted.{Accepted, IsCircuit};

    ghost Value = { shape.Region };

    ghost view = { λ s. s.grid };

    ghost invariant = { λ s. IsGrid s.grid × (s.inner.items ≡ inner_places s.grid) × IsCircuit s.grid (map (side_by s.grid.kind) s.boundary.items) × Accepted s.grid };
}

impl Region {
    /// The region of these cells, with the places of its inner corners and its boundary.
    pub(crate) fn of(grid: Grid, inner: Vec<u32>, boundary: Vec<BoundaryStep>) -> Region
        requires is_grid { IsGrid grid }
        requires inner { inner.items ≡ inner_places grid }
        requires boundary { IsCircuit grid (map (side_by grid.kind) boundary.items) }
        requires accepted { Accepted grid }
        ensures { result ≡ grid }
    {
        Region {
            grid,
            inner,
            boundary,
        }
    }

    /// The lattice of the region.
    pub fn kind(&self) -> Kind
        ensures { result ≡ self.now.kind }
    {
        self.grid.kind()
    }

    /// The number of rows of the region's text.
    pub fn rows(&self) -> u32
        ensures rows { result ≡ self.now.rows }
        ensures is_grid { IsGrid self.now }
        ensures accepted { Accepted self.now }
    {
        self.grid.rows()
    }

    /// The number of columns of the region's text: the greatest number of bytes in one of its rows.
    pub fn columns(&self) -> u32
        ensures columns { result ≡ self.now.columns }
        ensures is_grid { IsGrid self.now }
    {
        self.grid.columns()
    }

    /// The number of cells.
    pub fn cell_count(&self) -> u32
        ensures count { result ≡ length self.now.cells }
        ensures is_grid { IsGrid self.now }
    {
        self.grid.cell_count()
    }

    /// The cell of this number, in raster order from 0.
    pub fn cell(&self, i: u32) -> Cell
        requires { i < length self.now.cells }
        ensures { slice_get self.now.cells i ≡ Some result }
    {
        self.grid.cell(i)
    }

    /// Whether the cell is one of the region.
    pub fn has(&self, cell: Cell) -> bool
        ensures { result ≡ has self.now cell }
    {
        self.grid.has(cell)
    }

    /// The flags of a row: for each column whether the region has the cell.
    pub fn row(&self, r: u32) -> &[bool]
        requires { r < self.now.rows }
        ensures row { result.now ≡ map (has self.now) (row_part r 0 self.now.columns) }
        ensures is_grid { IsGrid self.now }
    {
        &self.grid.row(r)[..self.grid.columns() as usize]
    }

    /// The number of inner corners: those whose whole ring is in the region.
    pub fn inner_count(&self) -> u32
        ensures count { result ≡ length (inner_corners self.now) }
        ensures is_grid { IsGrid self.now }
    {
        self.inner.len() as u32
    }

    /// The inner corner of this number, in raster order from 0.
    pub fn inner(&self, i: u32) -> Corner
        requires { i < length (inner_corners self.now) }
        ensures { slice_get (inner_corners self.now) i ≡ Some result }
    {
        inner_corner(&self.grid, self.inner.as_slice(), i)
    }

    /// The places of the inner corners in raster order: corner r x is at place r (columns + 2) + x.
    pub fn inner_places(&self) -> &[u32]
        ensures places { result.now ≡ inner_places self.now }
        ensures is_grid { IsGrid self.now }
    {
        self.inner.as_slice()
    }

    /// The boundary's sides in order, with the region on the left, from the boundary corner that is first in raster
    /// order.
    pub fn boundary(&self) -> &[BoundaryStep]
        ensures circuit { IsCircuit self.now (map (side_by self.now.kind) result.now) }
        ensures is_grid { IsGrid self.now }
        ensures accepted { Accepted self.now }
    {
        self.boundary.as_slice()
    }

    /// Whether a directed step leads from the one corner to the other, along an edge of a cell of the region and with
    /// the dark cell on its left. Any two pairs may be asked for.
    pub fn is_step(&self, from: Corner, to: Corner) -> bool
        ensures { result ≡ is_step_of self.now from to }
    {
        is_step(&self.grid, from, to)
    }

    /// Whether the pair is an inner corner. Any pair may be asked for.
    pub fn is_inner(&self, corner: Corner) -> bool
        ensures { result ≡ is_inner_corner self.now corner }
    {
        is_inner(&self.grid, corner)
    }

    /// The number of the corner, found by halving; None where the pair is no inner corner. Any pair may be asked for.
    pub fn index_of(&self, corner: Corner) -> Option<u32>
        ensures { result ≡ position (corner_eq corner) (inner_corners self.now) }
    {
        number_of(&self.grid, self.inner.as_slice(), corner)
    }
}
