//! The cells round a corner, and the edges between them.

ghost use Rattle.std.specs.Prelude.{◌≡◌};
ghost use Rattle.std.specs.List.{list_any};
ghost use Rattle.tl_definitions.specs.Lattice.{is_corner as is_corner_of_kind, cell_back};
ghost use Rattle.tl_definitions.specs.Region.{has_at, is_step as is_step_of};
ghost use Rattle.tl_definitions.specs.Darts.{darts as darts_of, is_outward as is_outward_of, is_edge_of, leads_to as leads_to_of, is_step_by as is_step_by_of};

use crate::grid::Grid;
use tl_definitions::{Back, Dart};
use tl_lattice::{Cell, Corner, Kind, cell_width};

// The places of a ring: in the row above the corner and in its own row, so many columns back.
const ABOVE_2: Back = Back {
    rows: 1,
    columns: 2,
};

const ABOVE_1: Back = Back {
    rows: 1,
    columns: 1,
};

const ABOVE_0: Back = Back {
    rows: 1,
    columns: 0,
};

const BELOW_0: Back = Back {
    rows: 0,
    columns: 0,
};

const BELOW_1: Back = Back {
    rows: 0,
    columns: 1,
};

const BELOW_2: Back = Back {
    rows: 0,
    columns: 2,
};

static SQUARE: [Dart; 4] = [
    Dart {
        left: ABOVE_1,
        right: ABOVE_0,
    },
    Dart {
        left: ABOVE_0,
        right: BELOW_0,
    },
    Dart {
        left: BELOW_0,
        right: BELOW_1,
    },
    Dart {
        left: BELOW_1,
        right: ABOVE_1,
    },
];

static TRIANGLE: [Dart; 6] = [
    Dart {
        left: ABOVE_2,
        right: ABOVE_1,
    },
    Dart {
        left: ABOVE_1,
        right: ABOVE_0,
    },
    Dart {
        left: ABOVE_0,
        right: BELOW_0,
    },
    Dart {
        left: BELOW_0,
        right: BELOW_1,
    },
    Dart {
        left: BELOW_1,
        right: BELOW_2,
    },
    Dart {
        left: BELOW_2,
        right: ABOVE_2,
    },
];

/// The darts of a ring, clockwise.
pub fn darts(kind: Kind) -> &'static [Dart]
    ensures { result.now ≡ darts_of kind }
{
    match kind {
        Kind::Square => &SQUARE,
        Kind::Triangle => &TRIANGLE,
    }
}

/// Whether the pair is a corner of the lattice.
pub fn is_corner(kind: Kind, corner: Corner) -> bool
    ensures { result ≡ is_corner_of_kind kind corner }
{
    match kind {
        Kind::Square => true,
        Kind::Triangle => (u64::from(corner.r) + u64::from(corner.x)) % 2 == 1,
    }
}

// Whether the cell at this place of the corner's ring is in the region.
pub(crate) fn is_inside(grid: &Grid, corner: Corner, place: Back) -> bool
    ensures { result ≡ has_at grid.now (cell_back corner place.rows place.columns) }
{
    if corner.r < place.rows || corner.x < place.columns {
        return false;
    }
    grid.has(Cell {
        r: corner.r - place.rows,
        c: corner.x - place.columns,
    })
}

// Whether the dart is the edge of a directed step from the corner.
fn is_outward(corner: Corner, dart: Dart) -> bool
    ensures { result ≡ is_outward_of corner dart }
{
    let rows = u64::from(corner.r) + u64::from(dart.left.rows);
    let columns = u64::from(corner.x) + u64::from(dart.left.columns);
    (rows + columns) % 2 == 0
}

fn is_edge(grid: &Grid, corner: Corner, dart: Dart) -> bool
    ensures { result ≡ is_edge_of grid.now corner dart }
{
    is_inside(grid, corner, dart.left) || is_inside(grid, corner, dart.right)
}

// Whether the edge leads from the corner to the other one.
fn leads_to(kind: Kind, corner: Corner, dart: Dart, other: Corner) -> bool
    ensures { result ≡ leads_to_of kind corner dart other }
{
    let Dart { left, right } = dart;
    let rows = u64::from(left.rows) + u64::from(right.rows);
    let columns = u64::from(left.columns) + u64::from(right.columns);
    u64::from(corner.r) + 1 == u64::from(other.r) + rows
        && u64::from(corner.x) + u64::from(cell_width(kind)) == u64::from(other.x) + columns
}

// Whether a directed step of the region leads from the one corner to the other along the dart.
fn is_step_by(grid: &Grid, from: Corner, to: Corner, dart: Dart) -> bool
    ensures { result ≡ is_step_by_of grid.now from to dart }
{
    is_outward(from, dart) && leads_to(grid.kind(), from, dart, to) && is_edge(grid, from, dart)
}

// Whether one does along some dart.
fn is_step_by_some(grid: &Grid, from: Corner, to: Corner) -> bool
    ensures { result ≡ list_any (is_step_by_of grid.now from to) (darts_of grid.now.kind) }
{
    darts(grid.kind())
        .iter()
        .any(|dart| is_step_by(grid, from, to, *dart))
}

/// Whether a directed step leads from the one corner to the other, along an edge of a cell and with the dark cell on
/// its left. Any two pairs may be asked for.
pub fn is_step(grid: &Grid, from: Corner, to: Corner) -> bool
    ensures { result ≡ is_step_of grid.now from to }
{
    is_corner(grid.kind(), from) && is_step_by_some(grid, from, to)
}
