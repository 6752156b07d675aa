//! Whether a region is in one part.

ghost use Rattle.std.specs.Prelude.{◌≡◌, ◌∷◌, [], true, not, find, Some, IfOk, OnOk, MatchOption};
ghost use Rattle.tl_definitions.specs.Lattice.{neighbours as neighbours_of};
ghost use Rattle.tl_definitions.specs.Region.{has};
ghost use Rattle.tl_definitions.specs.Accepted.{InOnePart, IsFirstParted};
ghost use Rattle.tl_grid.specs.Grid.{flag_at, IsGrid};
ghost use Rattle.tl_grid.specs.Flood.{HasFlags, Reaches, AreFlagsOfPart};

use crate::grid::Grid;
use std::alloc::{AllocError, Global};
use tl_lattice::{Cell, neighbours};

/// A flood of a region: a flag for each place that it has reached, and the cells whose neighbours it has yet to
/// look at.
#[derive(Drop)]
pub struct Flood {
    pub reached: Vec<bool>,
    pub waiting: Vec<Cell>,
}

impl Flood {
    // Reaches the cell, if the region has it.
    fn reach(&mut self, grid: &Grid, cell: Cell) -> Result<(), AllocError>
        requires { HasFlags grid.now self.old.reached.items }
        ensures { OnOk result (Reaches grid.now (Some cell ∷ []) self.old self.new) }
    {
        if grid.has(cell) {
            let place = grid.place(cell);
            if !self.reached[place] {
                self.waiting.push(cell)?;
                self.reached[place] = true;
            }
        }
        Ok(())
    }

    // Reaches the neighbours of the cell.
    fn spread(&mut self, grid: &Grid, cell: Cell) -> Result<(), AllocError>
        requires size { HasFlags grid.now self.old.reached.items }
        requires inside { has grid.now cell ≡ true }
        ensures { OnOk result (Reaches grid.now (neighbours_of grid.now.kind cell) self.old self.new) }
    {
        for near in neighbours(grid.kind(), cell).cells {
            if let Some(near) = near {
                self.reach(grid, near)?;
            }
        }
        Ok(())
    }
}

// A flag for each place, set where its cell is joined to the first one.
fn flags_of_part(alloc: Global, grid: &Grid) -> Result<Vec<bool>, AllocError>
    ensures { IfOk result (λ flags. AreFlagsOfPart grid.now flags.items) }
{
    let mut flood = Flood {
        reached: vec![in alloc; false; grid.rows() as usize * grid.columns() as usize]?,
        waiting: Vec::new(alloc),
    };
    flood.reach(grid, grid.cell(0))?;
    while let Some(cell) = flood.waiting.pop() {
        flood.spread(grid, cell)?;
    }
    Ok(flood.reached)
}

// The first cell whose flag isn't set.
fn first_without(grid: &Grid, flags: &[bool]) -> Option<Cell>
    requires { HasFlags grid.now flags.now }
    ensures first { result ≡ find (λ a. not (flag_at grid.now.columns flags.now a)) grid.now.cells }
    ensures is_grid { IsGrid grid.now }
{
    for cell in grid.cells() {
        if !flags[grid.place(*cell)] {
            return Some(*cell);
        }
    }
    None
}

/// The first cell in raster order that isn't joined to the first one, if there is one.
pub fn first_parted(alloc: Global, grid: &Grid) -> Result<Option<Cell>, AllocError>
    ensures { IfOk result (λ parted. MatchOption parted (InOnePart grid.now) (IsFirstParted grid.now)) }
{
    let flags = flags_of_part(alloc, grid)?;
    Ok(first_without(grid, flags.as_slice()))
}
