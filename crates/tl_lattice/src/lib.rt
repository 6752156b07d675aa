//! Cells, corners, rings and steps of the square and the triangular lattice.
//!
//! Rows and columns are counted from 0, downwards and to the right. A cell is dark where the sum of its row
//! and its column is even. On the triangular lattice a dark cell is a triangle that points up, and a light
//! cell one that points down.
#![tactic(auto)]

ghost use Rattle.std.specs.Prelude.{◌≡◌, ◌≤◌, ◌^◌, length, IsTrue, pos};
ghost use Rattle.tl_definitions.specs.Lattice.{is_dark as is_dark_cell, neighbours as neighbours_of, ring as ring_of, is_corner, steps_out as steps_from, steps_in as steps_to, class_of as class_number, cell_back as cell_before, corner_at, less, cell_width as width_of, rise as rise_of};
ghost use Rattle.tl_lattice.specs.Places.{padded};

use tl_definitions::COORDINATE_LIMIT;
pub use tl_definitions::{Cell, Corner, Kind};

mod tables;

pub use tables::{Near, Ring, Steps};

/// Whether the cell is dark.
pub fn is_dark(cell: Cell) -> bool
    requires row { cell.r ≤ COORDINATE_LIMIT }
    requires column { cell.c ≤ COORDINATE_LIMIT }
    ensures { result ≡ is_dark_cell cell }
{
    (cell.r + cell.c) % 2 == 0
}

// The cell that lies so many rows above and columns left of the corner's own coordinates.
fn cell_back(corner: Corner, rows: u32, columns: u32) -> Option<Cell>
    ensures { result ≡ cell_before corner rows columns }
{
    if corner.r < rows || corner.x < columns {
        return None;
    }
    Some(Cell {
        r: corner.r - rows,
        c: corner.x - columns,
    })
}

/// The cells that share a side with the cell: to its left, to its right, and above and below; a triangle has
/// one of the last two, below where it points up and above where it points down.
pub fn neighbours(kind: Kind, cell: Cell) -> Near
    requires row { cell.r ≤ COORDINATE_LIMIT }
    requires column { cell.c ≤ COORDINATE_LIMIT }
    ensures cells { result.cells ≡ padded 4 (neighbours_of kind cell) }
    ensures len { result.len ≡ length (neighbours_of kind cell) }
{
    let here = Corner {
        r: cell.r,
        x: cell.c,
    };
    let left = cell_back(here, 0, 1);
    let right = Some(Cell {
        r: cell.r,
        c: cell.c + 1,
    });
    let above = cell_back(here, 1, 0);
    let below = Some(Cell {
        r: cell.r + 1,
        c: cell.c,
    });
    match kind {
        Kind::Square => Near {
            cells: [left, right, above, below],
            len: 4,
        },
        Kind::Triangle => {
            if is_dark(cell) {
                Near {
                    cells: [left, right, below, None],
                    len: 3,
                }
            } else {
                Near {
                    cells: [left, right, above, None],
                    len: 3,
                }
            }
        }
    }
}

/// The cells round the corner, clockwise. The pair has to be a corner of the lattice.
pub fn ring(kind: Kind, corner: Corner) -> Ring
    requires { IsTrue (is_corner kind corner) }
    ensures cells { result.cells ≡ padded 6 (ring_of kind corner) }
    ensures len { result.len ≡ length (ring_of kind corner) }
{
    match kind {
        Kind::Square => Ring {
            cells: [
                cell_back(corner, 1, 1),
                cell_back(corner, 1, 0),
                cell_back(corner, 0, 0),
                cell_back(corner, 0, 1),
                None,
                None,
            ],
            len: 4,
        },
        Kind::Triangle => Ring {
            cells: [
                cell_back(corner, 1, 2),
                cell_back(corner, 1, 1),
                cell_back(corner, 1, 0),
                cell_back(corner, 0, 0),
                cell_back(corner, 0, 1),
                cell_back(corner, 0, 2),
            ],
            len: 6,
        },
    }
}

// The corner that lies so far above and to the left of a corner.
fn corner_back(corner: Corner, up: u32, left: u32) -> Option<Corner>
    ensures { result ≡ corner_at (less corner.r up) (less corner.x left) }
{
    if corner.r < up || corner.x < left {
        return None;
    }
    Some(Corner {
        r: corner.r - up,
        x: corner.x - left,
    })
}

/// The corners to which a directed step leads: along an edge, with the dark cell on the left. The pair has to
/// be a corner of the lattice.
pub fn steps_out(kind: Kind, corner: Corner) -> Steps
    requires row { corner.r ≤ COORDINATE_LIMIT }
    requires column { corner.x ≤ COORDINATE_LIMIT }
    requires is_corner { IsTrue (is_corner kind corner) }
    ensures corners { result.corners ≡ padded 3 (steps_from kind corner) }
    ensures len { result.len ≡ length (steps_from kind corner) }
{
    let Corner { r, x } = corner;
    match kind {
        Kind::Square => {
            let (first, second) = if (r + x) % 2 == 0 {
                (corner_back(corner, 1, 0), Corner { r: r + 1, x })
            } else {
                (corner_back(corner, 0, 1), Corner { r, x: x + 1 })
            };
            Steps {
                corners: [first, Some(second), None],
                len: 2,
            }
        }
        Kind::Triangle => Steps {
            corners: [
                Some(Corner { r, x: x + 2 }),
                corner_back(corner, 1, 1),
                corner_back(Corner { r: r + 1, x }, 0, 1),
            ],
            len: 3,
        },
    }
}

/// The corners from which a directed step leads to the corner: along an edge, with the dark cell on the left. The
/// pair has to be a corner of the lattice.
pub fn steps_in(kind: Kind, corner: Corner) -> Steps
    requires row { corner.r ≤ COORDINATE_LIMIT }
    requires column { corner.x ≤ COORDINATE_LIMIT }
    requires is_corner { IsTrue (is_corner kind corner) }
    ensures corners { result.corners ≡ padded 3 (steps_to kind corner) }
    ensures len { result.len ≡ length (steps_to kind corner) }
{
    let Corner { r, x } = corner;
    match kind {
        Kind::Square => {
            let (first, second) = if (r + x) % 2 == 0 {
                (Some(Corner { r, x: x + 1 }), corner_back(corner, 0, 1))
            } else {
                (corner_back(corner, 1, 0), Some(Corner { r: r + 1, x }))
            };
            Steps {
                corners: [first, second, None],
                len: 2,
            }
        }
        Kind::Triangle => Steps {
            corners: [
                corner_back(Corner { r, x: x + 1 }, 1, 0),
                Some(Corner { r: r + 1, x: x + 1 }),
                corner_back(corner, 0, 2),
            ],
            len: 3,
        },
    }
}

/// The class of the corner, from 0 on: no step joins two corners of one class. There are two on the square
/// lattice and three on the triangular one.
pub fn class_of(kind: Kind, corner: Corner) -> u8
    requires row { corner.r ≤ COORDINATE_LIMIT }
    requires column { corner.x ≤ COORDINATE_LIMIT }
    ensures { result ≡ class_number kind corner }
{
    match kind {
        Kind::Square => ((corner.r + corner.x) % 2) as u8,
        Kind::Triangle => (corner.x % 3) as u8,
    }
}

/// How many columns of corners a cell spans, and so how far a corner is from its neighbours in the row.
pub fn cell_width(kind: Kind) -> u32
    ensures { result ≡ width_of kind }
{
    match kind {
        Kind::Square => 1,
        Kind::Triangle => 2,
    }
}

/// By how much a flip changes the height of its corner.
pub fn rise(kind: Kind) -> i32
    ensures { result ≡ pos (rise_of kind) }
{
    match kind {
        Kind::Square => 4,
        Kind::Triangle => 3,
    }
}

#[cfg(test)]
mod tests;
