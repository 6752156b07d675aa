//! Cells with a flag for each place.

ghost use Rattle.std.specs.Prelude.{◌≡◌, ◌<◌, ◌≤◌, ◌+◌, ◌*◌, true, length, map, slice_get, All, IfOk};
ghost use Rattle.tl_definitions.specs.Region.{has, row_part};
ghost use Rattle.tl_grid.specs.Grid.{IsGrid, AreFlagsOf};

use std::alloc::{AllocError, Global};
use std::marker::Model;
use tl_definitions::SIDE_LIMIT;
use tl_lattice::{Cell, Corner, Kind};

/// Finitely many cells of one lattice: at least one, in at most `SIDE_LIMIT` rows and columns. Clauses see it as a
/// region of the definitions, which need not be accepted.
#[derive(Drop)]
pub struct Grid {
    kind: Kind,
    rows: u32,
    columns: u32,
    inside: Vec<bool>,
    cells: Vec<Cell>,
}

impl Model for Grid {
    ghost use Rattle.std.specs.Prelude.{◌+◌};
    ghost use Rattle.tl_definitions.specs.Region as shape;
    ghost use Rattle.tl_grid.specs.Grid.{IsGrid, AreFlagsOf};

    ghost Value = { shape.Region };

    ghost view = { λ s. record { kind = s.kind; rows = s.rows; columns = s.columns; cells = s.cells.items } };

    ghost invariant = { λ s. IsGrid (record { kind = s.kind; rows = s.rows; columns = s.columns; cells = s.cells.items }) × AreFlagsOf (s.rows + 1) (s.columns + 2) s.cells.items s.inside.items };
}

// The flags of `rows * columns` places, row by row, set where the place is one of the cells.
fn flags_of(alloc: Global, rows: u32, columns: u32, cells: &[Cell]) -> Result<Vec<bool>, AllocError>
    requires rows { rows ≤ SIDE_LIMIT + 1 }
    requires columns { columns ≤ SIDE_LIMIT + 2 }
    requires within { All (λ a. (a.r < rows) × (a.c < columns)) cells.now }
    ensures { IfOk result (λ flags. AreFlagsOf rows columns cells.now flags.items) }
{
    let width = columns as usize;
    let mut flags = vec![in alloc; false; rows as usize * width]?;
    for cell in cells {
        flags[cell.r as usize * width + cell.c as usize] = true;
    }
    Ok(flags)
}

impl Grid {
    ghost use Rattle.std.specs.Prelude.{IfOk};
    ghost use Rattle.tl_grid.specs.Grid.{AreFlagsOf};

    /// The grid of these cells.
    pub fn of_cells(
        alloc: Global,
        kind: Kind,
        rows: u32,
        columns: u32,
        cells: Vec<Cell>,
    ) -> Result<Grid, AllocError>
        requires { IsGrid (record { kind = kind; rows = rows; columns = columns; cells = cells.items }) }
        ensures { IfOk result (λ R. R ≡ record {
          kind = kind;
          rows = rows;
          columns = columns;
          cells = cells.items;
        }) }
    {
        let inside = flags_of(alloc, rows + 1, columns + 2, cells.as_slice())?;
        Ok(Grid {
            kind,
            rows,
            columns,
            inside,
            cells,
        })
    }

    /// The lattice of the cells.
    pub fn kind(&self) -> Kind
        ensures kind { result ≡ self.now.kind }
        ensures is_grid { IsGrid self.now }
    {
        self.kind
    }

    /// The number of rows. Each cell is in one of them.
    pub fn rows(&self) -> u32
        ensures rows { result ≡ self.now.rows }
        ensures is_grid { IsGrid self.now }
    {
        self.rows
    }

    /// The number of columns. Each cell is in one of them.
    pub fn columns(&self) -> u32
        ensures columns { result ≡ self.now.columns }
        ensures is_grid { IsGrid self.now }
    {
        self.columns
    }

    /// The number of cells.
    pub fn cell_count(&self) -> u32
        ensures count { result ≡ length self.now.cells }
        ensures is_grid { IsGrid self.now }
    {
        self.cells.len() as u32
    }

    /// The cell of this number, in raster order from 0.
    pub fn cell(&self, i: u32) -> Cell
        requires { i < length self.now.cells }
        ensures { slice_get self.now.cells i ≡ Some result }
    {
        self.cells[i as usize]
    }

    /// The cells, in raster order.
    pub fn cells(&self) -> &[Cell]
        ensures cells { result.now ≡ self.now.cells }
        ensures is_grid { IsGrid self.now }
    {
        self.cells.as_slice()
    }

    /// How many corner places a row has.
    pub fn width(&self) -> usize
        ensures width { result ≡ self.now.columns + 2 }
        ensures is_grid { IsGrid self.now }
    {
        self.columns as usize + 2
    }

    /// The place of a cell of the grid in a list of all places, row by row.
    pub fn place(&self, cell: Cell) -> usize
        requires { has self.now cell ≡ true }
        ensures place { result ≡ cell.r * self.now.columns + cell.c }
        ensures within { result < self.now.rows * self.now.columns }
        ensures is_grid { IsGrid self.now }
    {
        cell.r as usize * self.columns as usize + cell.c as usize
    }

    /// The place of a corner in a list of all corner places, row by row.
    pub fn corner_place(&self, corner: Corner) -> usize
        requires row { corner.r < self.now.rows + 1 }
        requires column { corner.x < self.now.columns + 2 }
        ensures place { result ≡ corner.r * (self.now.columns + 2) + corner.x }
        ensures within { result < (self.now.rows + 1) * (self.now.columns + 2) }
        ensures is_grid { IsGrid self.now }
    {
        corner.r as usize * self.width() + corner.x as usize
    }

    /// The flags of a row of corner places: set where the cell with the place's own row and column is in the grid. The
    /// last two of a row never are, and none is in the row after the last.
    pub fn row(&self, r: u32) -> &[bool]
        requires { r < self.now.rows + 1 }
        ensures row { result.now ≡ map (has self.now) (row_part r 0 (self.now.columns + 2)) }
        ensures is_grid { IsGrid self.now }
    {
        let width = self.width();
        let start = r as usize * width;
        &self.inside[start..start + width]
    }

    /// Whether the cell is one of the grid.
    pub fn has(&self, cell: Cell) -> bool
        ensures { result ≡ has self.now cell }
    {
        if cell.r < self.rows && cell.c < self.columns {
            self.inside[cell.r as usize * self.width() + cell.c as usize]
        } else {
            false
        }
    }
}
