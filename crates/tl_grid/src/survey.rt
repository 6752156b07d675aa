//! One look at each corner of a grid.

ghost use Rattle.std.specs.Prelude.{◌≡◌, ◌+◌, ◌*◌, ◌%◌, ◌<◌, ◌≤◌, ◌++◌, ◌∷◌, [], if◌then◌else◌, map, IfOk, OnOk};
ghost use Rattle.std.specs.Option.{option_or};
ghost use Rattle.std.specs.Bool.{then_some};
ghost use Rattle.tl_definitions.specs.Lattice.{corner as corner_of, cell_back};
ghost use Rattle.tl_definitions.specs.Limits.{most_corners};
ghost use Rattle.tl_definitions.specs.Region.{has_at, corners_before};
ghost use Rattle.tl_lists.specs.Lists.{upto};
ghost use Rattle.tl_grid.specs.Grid.{IsGrid};
ghost use Rattle.tl_grid.specs.Patterns.{AreAllFacts, facts_by, facts_of};
ghost use Rattle.tl_grid.specs.Survey.{IsSurveyOf, IsSurveyAmong, has_exit as has_exit_in};

use crate::grid::Grid;
use crate::patterns::{FactTable, NO_EXIT, RingFacts, next_pattern};
use std::alloc::{AllocError, Global};
use tl_lattice::Corner;

/// What the rings of all corners tell of a grid.
#[derive(Drop)]
pub struct Survey {
    /// The first corner in raster order round which the cells form two or more separate runs.
    pub pinch: Option<Corner>,
    /// The first boundary corner in raster order.
    pub start: Option<Corner>,
    /// The number of boundary corners.
    pub boundary: u32,
    /// The number of corners of the cells.
    pub corners: u32,
    /// The number of edges of the cells.
    pub edges: u32,
    /// The places of the inner corners among all corner places, in raster order.
    pub inner: Vec<u32>,
    /// For each corner place, row by row, the number of the first dart by which the boundary leaves the corner, or
    /// `NO_EXIT`.
    pub exits: Vec<u8>,
}

// Adds the number to the list if asked to.
fn push_if(wanted: bool, list: &mut Vec<u32>, number: u32) -> Result<(), AllocError>
    ensures { OnOk result (list.new.items
        ≡ (if wanted then list.old.items ++ (number ∷ []) else list.old.items)) }
{
    if wanted {
        list.push(number)?;
    }
    Ok(())
}

// The flags of the row above: none is set above the first row.
fn row_above(grid: &Grid, r: u32) -> &[bool]
    requires { r < grid.now.rows + 1 }
    ensures { result.now ≡ map (λ x. has_at grid.now (cell_back (corner_of r x) 1 0))
        (upto (grid.now.columns + 2)) }
{
    grid.row(if r == 0 { grid.rows() } else { r - 1 })
}

impl Survey {
    // Takes in whether the corner is a pinch or a boundary corner: few corners are.
    fn see_boundary(&mut self, corner: Corner, facts: RingFacts)
        requires { self.old.boundary ≤ most_corners }
        ensures { self.new ≡ record {
          pinch = option_or self.old.pinch (then_some facts.is_pinch corner);
          start = option_or self.old.start (then_some (has_exit_in facts) corner);
          boundary = if has_exit_in facts then self.old.boundary + 1 else self.old.boundary;
          corners = self.old.corners;
          edges = self.old.edges;
          inner = self.old.inner;
          exits = self.old.exits;
        } }
    {
        let has_exit = facts.exit != NO_EXIT;
        if has_exit || facts.is_pinch {
            self.pinch = self.pinch.or(facts.is_pinch.then_some(corner));
            self.start = self.start.or(has_exit.then_some(corner));
            self.boundary += u32::from(has_exit);
        }
    }

    // Takes in what the ring of the next corner place tells.
    fn see(&mut self, grid: &Grid, corner: Corner, facts: RingFacts) -> Result<(), AllocError>
        requires is_grid { IsGrid grid.now }
        requires row { corner.r < grid.now.rows + 1 }
        requires column { corner.x < grid.now.columns + 2 }
        requires facts { facts ≡ facts_of grid.now corner }
        requires seen { IsSurveyAmong grid.now
            (corners_before (grid.now.columns + 2) corner.r corner.x) self.old }
        ensures seen { OnOk result (IsSurveyAmong grid.now
            (corners_before (grid.now.columns + 2) corner.r (corner.x + 1)) self.new) }
    {
        self.see_boundary(corner, facts);
        self.corners += u32::from(facts.is_touched);
        self.edges += u32::from(facts.steps);
        push_if(
            facts.is_inner,
            &mut self.inner,
            grid.corner_place(corner) as u32,
        )?;
        self.exits.push(facts.exit)?;
        Ok(())
    }

    // Takes in the ring of the next corner place, whose cells have this pattern.
    fn see_ring(
        &mut self,
        table: &FactTable,
        grid: &Grid,
        corner: Corner,
        pattern: u8,
    ) -> Result<(), AllocError>
        requires is_grid { IsGrid grid.now }
        requires row { corner.r < grid.now.rows + 1 }
        requires column { corner.x < grid.now.columns + 2 }
        requires table { AreAllFacts grid.now.kind table.now.all }
        requires pattern { pattern < 64 }
        requires facts { facts_by grid.now.kind ((corner.r + corner.x) % 2) pattern ≡ facts_of grid.now corner }
        requires seen { IsSurveyAmong grid.now
            (corners_before (grid.now.columns + 2) corner.r corner.x) self.old }
        ensures seen { OnOk result (IsSurveyAmong grid.now
            (corners_before (grid.now.columns + 2) corner.r (corner.x + 1)) self.new) }
    {
        // No cell is near most places of a sparse grid.
        if pattern == 0 {
            self.exits.push(NO_EXIT)?;
            return Ok(());
        }
        let facts = table.at(grid.kind(), (corner.r + corner.x) % 2, pattern);
        self.see(grid, corner, facts)
    }

    // Takes in what the rings of a row of corner places tell.
    fn see_row(&mut self, table: &FactTable, grid: &Grid, r: u32) -> Result<(), AllocError>
        requires row { r < grid.now.rows + 1 }
        requires table { AreAllFacts grid.now.kind table.now.all }
        requires seen { IsSurveyAmong grid.now (corners_before (grid.now.columns + 2) r 0) self.old }
        ensures seen { OnOk result (IsSurveyAmong grid.now
            (corners_before (grid.now.columns + 2) (r + 1) 0) self.new) }
        ensures is_grid { IsGrid grid.now }
    {
        let below = grid.row(r);
        let above = row_above(grid, r);
        let mut pattern = 0;
        for x in 0..grid.columns() + 2 {
            pattern = next_pattern(pattern, above[x as usize], below[x as usize]);
            self.see_ring(table, grid, Corner { r, x }, pattern)?;
        }
        Ok(())
    }

    /// One look at each corner place of the grid.
    pub fn of(alloc: Global, grid: &Grid) -> Result<Survey, AllocError>
        ensures survey { IfOk result (IsSurveyOf grid.now) }
        ensures is_grid { IsGrid grid.now }
    {
        let table = FactTable::new(grid.kind());
        let places = (grid.rows() as usize + 1) * grid.width();
        let mut survey = Survey {
            pinch: None,
            start: None,
            boundary: 0,
            corners: 0,
            edges: 0,
            inner: Vec::new(alloc),
            exits: Vec::with_capacity(alloc, places)?,
        };
        for r in 0..grid.rows() + 1 {
            survey.see_row(&table, grid, r)?;
        }
        Ok(survey)
    }
}
