//! Reading the text of a region.

ghost use Rattle.std.specs.Prelude.{◌≡◌, ◌≤◌, ◌^◌, length, IfOk, IfErr, IfSome};
ghost use Rattle.tl_formats.specs.Input.{first_section, taken};
ghost use Rattle.tl_lines.specs.Lines.{section_at};
ghost use Rattle.tl_grid.specs.Grid.{IsGrid};
ghost use Rattle.tl_region.specs.Refusals.{refusal_by};
ghost use Rattle.tl_definitions.specs.Accepted.{IsPlaced};
ghost use Rattle.tl_formats.specs.RegionText.{IsRegionText, IsRefusedText};
ghost use Rattle.tl_region.specs.Rows.{region_by, HasAllowedSize, HasRefusedSize};
ghost use Rattle.tl_region.specs.Texts.{IsReadableText, IsUnreadableText};

use crate::fault::RegionFault;
use crate::header::kind_of;
use crate::region::Region;
use crate::rows::{Rows, read_rows};
use crate::rules::accepted;
use std::alloc::Global;
use tl_definitions::SIDE_LIMIT;
use tl_formats::INPUT_LIMIT;
use tl_grid::Grid;
use tl_lattice::Kind;
use tl_lines::cut_line;

// The cells of rows that were read, where they aren't too many or none.
fn grid_from(alloc: Global, kind: Kind, rows: Rows) -> Result<Grid, RegionFault>
    requires { rows.count ≤ SIDE_LIMIT → rows.columns ≤ SIDE_LIMIT → IsPlaced (region_by kind rows) }
    ensures region { IfOk result (λ R. (R ≡ region_by kind rows) × HasAllowedSize R) }
    ensures is_grid { IfOk result IsGrid }
    ensures refused { IfErr result (λ fault. IfSome (refusal_by fault)
        (HasRefusedSize (region_by kind rows))) }
{
    if rows.count > SIDE_LIMIT || rows.columns > SIDE_LIMIT {
        return Err(RegionFault::TooLarge);
    }
    if rows.cells.is_empty() {
        return Err(RegionFault::Empty);
    }
    match Grid::of_cells(alloc, kind, rows.count, rows.columns, rows.cells) {
        Ok(grid) => Ok(grid),
        Err(_) => Err(RegionFault::OutOfMemory),
    }
}

/// Reads the cells that the first section names, before the rules of an accepted region are asked, and tells the
/// number of bytes taken.
pub fn read_grid(alloc: Global, bytes: &[u8]) -> Result<(Grid, usize), RegionFault>
    requires { length bytes.now ≤ INPUT_LIMIT }
    ensures region { IfOk result (λ p. IsReadableText (first_section bytes.now).lines p.0) }
    ensures is_grid { IfOk result (λ p. IsGrid p.0) }
    ensures taken { IfOk result (λ p. p.1 ≡ taken bytes.now (first_section bytes.now)) }
    ensures refused { IfErr result (λ fault. IfSome (refusal_by fault)
        (IsUnreadableText (first_section bytes.now).lines)) }
{
    if bytes.is_empty() {
        return Err(RegionFault::BadHeader);
    }
    let (header, text) = cut_line(bytes);
    let Some(kind) = kind_of(header) else {
        return Err(RegionFault::BadHeader);
    };
    let (rows, rest) = read_rows(alloc, text)?;
    let grid = grid_from(alloc, kind, rows)?;
    Ok((grid, bytes.len() - rest.len()))
}

/// Reads the region of the first section, and tells the number of bytes taken, the closing empty line
/// included. There are at most `INPUT_LIMIT` bytes.
///
/// The first line is the header: `square` or `triangle`, after which any number of spaces may stand. Each
/// further line is a row, in which `#` is a cell of the region and `.` and a space are none.
///
/// # Errors
/// The first cause in the order of `RegionFault`.
pub fn read_region(alloc: Global, bytes: &[u8]) -> Result<(Region, usize), RegionFault>
    requires { length bytes.now ≤ INPUT_LIMIT }
    ensures region { IfOk result (λ p. IsRegionText (first_section bytes.now).lines p.0) }
    ensures taken { IfOk result (λ p. p.1 ≡ taken bytes.now (first_section bytes.now)) }
    ensures refused { IfErr result (λ fault. IfSome (refusal_by fault)
        (IsRefusedText (first_section bytes.now).lines)) }
{
    let (grid, taken) = read_grid(alloc, bytes)?;
    Ok((accepted(alloc, grid)?, taken))
}
