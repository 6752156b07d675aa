//! The walk along the boundary.

ghost use Rattle.std.specs.Prelude.{◌≡◌, ◌≤◌, ◌↔◌, map, length, filter, find, List, [], IfOk, IfSome, IsTrue, IsFalse, MatchOption};
ghost use Rattle.std.specs.List.{list_any};
ghost use Rattle.tl_definitions.specs.Lattice.{Side};
ghost use Rattle.tl_definitions.specs.Region.{corner_places};
ghost use Rattle.tl_definitions.specs.Accepted.{is_pinch, IsCircuit, InOnePart};
ghost use Rattle.tl_definitions.specs.Boundary.{is_boundary_corner, IsClosedWalk};
ghost use Rattle.tl_grid.specs.Grid.{IsGrid};
ghost use Rattle.tl_grid.specs.Survey.{AreExitsLeft};
ghost use Rattle.tl_grid.specs.Sides.{side_of, side_by, dart_by};

use crate::grid::Grid;
use crate::patterns::NO_EXIT;
use crate::rings::darts;
use std::alloc::{AllocError, Global};
use tl_definitions::{Back, Dart};
use tl_lattice::{Cell, Corner, Kind, cell_width};

/// A side of a cell that is a side of no other cell of the region, in the direction that has the region on its left.
#[derive(Clone, Copy, Debug, PartialEq, Eq)]
pub struct BoundarySide {
    pub cell: Cell,
    pub from: Corner,
    pub to: Corner,
}

/// A boundary side in few bytes: the corner from which it goes, and the number of its dart there.
#[derive(Clone, Copy, Debug, PartialEq, Eq)]
pub struct BoundaryStep {
    pub r: u16,
    pub x: u16,
    pub dart: u8,
}

const NO_DART: Dart = Dart {
    left: Back {
        rows: 0,
        columns: 0,
    },
    right: Back {
        rows: 0,
        columns: 0,
    },
};

// The dart of this number.
fn dart_of(kind: Kind, number: u8) -> Dart
    ensures { result ≡ dart_by kind number }
{
    match darts(kind).get(number as usize) {
        Some(dart) => *dart,
        None => NO_DART,
    }
}

impl BoundaryStep {
    /// The side.
    pub fn side(self, kind: Kind) -> BoundarySide
        ensures { side_of result ≡ side_by kind self }
    {
        let Dart { left, right } = dart_of(kind, self.dart);
        let from = Corner {
            r: u32::from(self.r),
            x: u32::from(self.x),
        };
        BoundarySide {
            cell: Cell {
                r: from.r.saturating_sub(left.rows),
                c: from.x.saturating_sub(left.columns),
            },
            from,
            to: Corner {
                r: (from.r + 1)
                    .saturating_sub(left.rows)
                    .saturating_sub(right.rows),
                x: (from.x + cell_width(kind))
                    .saturating_sub(left.columns)
                    .saturating_sub(right.columns),
            },
        }
    }
}

// Goes along the boundary, with the region on the left, until it comes back.
fn walk(
    alloc: Global,
    grid: &Grid,
    start: Corner,
    exits: Vec<u8>,
) -> Result<Vec<BoundaryStep>, AllocError>
    requires is_grid { IsGrid grid.now }
    requires no_pinch { IsFalse (list_any (is_pinch grid.now) (corner_places grid.now)) }
    requires start { IsTrue (is_boundary_corner grid.now start) }
    requires exits { AreExitsLeft grid.now [] exits.items }
    ensures { IfOk result (λ steps. IsClosedWalk grid.now start (map (side_by grid.now.kind) steps.items)) }
{
    let mut left = exits;
    let mut steps = Vec::new(alloc);
    let mut corner = start;
    loop {
        let place = grid.corner_place(corner);
        let dart = left[place];
        if dart == NO_EXIT {
            return Ok(steps);
        }
        left[place] = NO_EXIT;
        let step = BoundaryStep {
            r: corner.r as u16,
            x: corner.x as u16,
            dart,
        };
        steps.push(step)?;
        corner = step.side(grid.kind()).to;
    }
}

/// The sides of the boundary in order, if they form one circuit: if the walk from the first boundary corner has as many
/// sides as there are boundary corners. The cells are then in one part. No corner is a pinch. The number of the
/// boundary corners, the first of them and the exits are those of a survey.
pub fn one_circuit(
    alloc: Global,
    grid: &Grid,
    boundary: u32,
    start: Option<Corner>,
    exits: Vec<u8>,
) -> Result<Option<Vec<BoundaryStep>>, AllocError>
    requires is_grid { IsGrid grid.now }
    requires no_pinch { IsFalse (list_any (is_pinch grid.now) (corner_places grid.now)) }
    requires boundary { boundary ≡ length (filter (is_boundary_corner grid.now) (corner_places grid.now)) }
    requires start { start ≡ find (is_boundary_corner grid.now) (corner_places grid.now) }
    requires exits { AreExitsLeft grid.now [] exits.items }
    ensures circuit { IfOk result (λ found. MatchOption found
        (¬ ((walk : List Side) × IsCircuit grid.now walk))
        (λ steps. IsCircuit grid.now (map (side_by grid.now.kind) steps.items))) }
    ensures one_part { IfOk result (λ found. IfSome found (λ steps. InOnePart grid.now)) }
{
    let Some(start) = start else {
        return Ok(Some(Vec::new(alloc)));
    };
    let steps = walk(alloc, grid, start, exits)?;
    if steps.len() == boundary as usize {
        Ok(Some(steps))
    } else {
        Ok(None)
    }
}
