//! The tiling type.

ghost use Rattle.std.specs.Prelude.{◌≡◌, ◌+◌, ◌*◌, [], ◌∷◌, ◌++◌, length, IsTrue, Some};
ghost use Rattle.tl_definitions.specs.Region.{has};
ghost use Rattle.tl_definitions.specs.Tiling.{partner, is_tiling};
ghost use Rattle.tl_formats.specs.Drawing.{drawing};
ghost use Rattle.tl_grid.specs.Grid.{IsGrid};

use crate::matching::partner_in;
use std::marker::Model;
use tl_lattice::Cell;
use tl_region::Region;

/// A tiling of a region.
#[derive(Drop)]
pub struct Tiling<'a> {
    region: &'a Region,
    letters: Vec<u8>,
}

impl<'a> Model for Tiling<'a> {
    ghost use Rattle.tl_definitions.specs.Tiling.{Tiled};
    ghost use Rattle.tl_grid.specs.Grid.{IsGrid};
    ghost use Rattle.tl_tiling.specs.Letters.{AreLetters, tiles_in};

    ghost Value = { Tiled };

    ghost view = { λ s. record { region = s.region.now; tiles = tiles_in s.region.now s.letters.items } };

    ghost invariant = { λ s. IsGrid s.region.now × AreLetters s.region.now s.letters.items };
}

impl<'a> Tiling<'a> {
    ghost use Rattle.tl_tiling.specs.Letters.{AreLetters, tiles_in};

    /// The tiling of these letters.
    pub(crate) fn of(region: &'a Region, letters: Vec<u8>) -> Tiling<'a>
        requires is_grid { IsGrid region.now }
        requires letters { AreLetters region.now letters.items }
        ensures { result ≡ record { region = region.now; tiles = tiles_in region.now letters.items } }
    {
        Tiling { region, letters }
    }

    /// The region.
    pub fn region(&self) -> &'a Region
        ensures region { result.now ≡ self.now.region }
        ensures tiling { IsTrue (is_tiling self.now.region self.now.tiles) }
    {
        self.region
    }

    /// The cell that shares the tile of this one. The region has the cell.
    pub fn partner(&self, cell: Cell) -> Cell
        requires { IsTrue (has self.now.region cell) }
        ensures { partner self.now.tiles cell ≡ Some result }
    {
        partner_in(self.region, self.letters.as_slice(), cell)
    }

    /// Prints the drawing: one line for each row, each with a line feed, of as many bytes as the region has
    /// columns. A cell has the letter that names its partner, and every other place has `.`.
    pub fn draw_into(&self, out: &mut [u8])
        requires { length out.old ≡ self.now.region.rows * (self.now.region.columns + 1) }
        ensures { out.new ≡ drawing self.now.region self.now.tiles }
    {
        let rows = self.region.rows() as usize;
        let columns = self.region.columns() as usize;
        for r in 0..rows {
            let row = &self.letters[r * columns..r * columns + columns];
            let start = r * (columns + 1);
            write_line(&mut out[start..start + columns + 1], row);
        }
    }
}

// Writes the row and a line feed.
fn write_line(line: &mut [u8], row: &[u8])
    requires { length line.old ≡ length row.now + 1 }
    ensures { line.new ≡ row.now ++ 10 ∷ [] }
{
    line[..row.len()].copy_from_slice(row);
    line[row.len()] = b'\n';
}
