//! The rows of a region's text.

ghost use Rattle.std.specs.Prelude.{◌≡◌, ◌+◌, ◌<◌, ◌≤◌, ◌^◌, ◌++◌, length, slice_get, IfOk, IfErr, IfSome, None};
ghost use Rattle.tl_formats.specs.Marks.{marks, is_bad};
ghost use Rattle.tl_lines.specs.Lines.{section_at};
ghost use Rattle.tl_region.specs.Rows.{kept_of_row, IsRowsOf, IsBadByteOf};
ghost use Rattle.tl_region.specs.Refusals.{refusal_by};

use crate::fault::RegionFault;
use std::alloc::{AllocError, Global};
use tl_definitions::SIDE_LIMIT;
use tl_formats::INPUT_LIMIT;
use tl_lattice::Cell;
use tl_lines::next_line;

/// What the rows name: how many there are, the greatest number of bytes in one of them, and their cells in
/// raster order. Cells of a row past the limit are left out, as no region comes of the text.
#[derive(Drop)]
pub struct Rows {
    pub count: u32,
    pub columns: u32,
    pub cells: Vec<Cell>,
}

// The first byte of a row that is none of the three.
fn bad_byte_of(line: &[u8], r: u32) -> Option<Cell>
    requires { length line.now < 2 ^ 32 }
    ensures { result ≡ slice_get (marks is_bad r 0 line.now) 0 }
{
    for (c, byte) in line.iter().enumerate() {
        if !matches!(*byte, b'#' | b'.' | b' ') {
            return Some(Cell { r, c: c as u32 });
        }
    }
    None
}

// Adds the cells of a row that isn't past the limit, or gives the row's first bad byte.
fn read_row(line: &[u8], r: u32, cells: &mut Vec<Cell>) -> Result<Option<Cell>, AllocError>
    requires { length line.now < 2 ^ 32 }
    ensures bad { IfOk result (λ bad. bad ≡ slice_get (marks is_bad r 0 line.now) 0) }
    ensures cells { IfOk result (λ bad. bad ≡ None → cells.new.items
        ≡ cells.old.items ++ kept_of_row r line.now) }
{
    if r >= SIDE_LIMIT || line.len() > SIDE_LIMIT as usize {
        return Ok(bad_byte_of(line, r));
    }
    for (c, byte) in line.iter().enumerate() {
        let cell = Cell { r, c: c as u32 };
        match *byte {
            b'#' => cells.push(cell)?,
            b'.' | b' ' => {}
            _ => return Ok(Some(cell)),
        }
    }
    Ok(None)
}

/// Reads the rows of a section whose header was read, and gives what follows the section.
pub fn read_rows(alloc: Global, text: &[u8]) -> Result<(Rows, &[u8]), RegionFault>
    requires { length text.now ≤ INPUT_LIMIT }
    ensures rows { IfOk result (λ p. IsRowsOf (section_at text.now).lines p.0) }
    ensures rest { IfOk result (λ p. p.1.now ≡ (section_at text.now).rest) }
    ensures within { IfOk result (λ p. length p.1.now ≤ length text.now) }
    ensures refused { IfErr result (λ fault. IfSome (refusal_by fault)
        (IsBadByteOf (section_at text.now).lines)) }
{
    let mut rows = Rows {
        count: 0,
        columns: 0,
        cells: Vec::new(alloc),
    };
    let mut rest = text;
    loop {
        let (line, after) = next_line(rest);
        rest = after;
        let Some(line) = line else {
            return Ok((rows, rest));
        };
        match read_row(line, rows.count, &mut rows.cells) {
            Ok(None) => {}
            Ok(Some(cell)) => return Err(RegionFault::BadByte(cell)),
            Err(_) => return Err(RegionFault::OutOfMemory),
        }
        rows.count += 1;
        rows.columns = rows.columns.max(line.len() as u32);
    }
}
