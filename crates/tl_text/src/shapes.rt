//! The texts of generated regions.

ghost use Rattle.std.specs.Prelude.{◌≡◌, ◌<◌, ◌≤◌, ◌^◌, IfOk};
ghost use Rattle.tl_text.specs.Shapes.{header as header_of, hexagon_columns as hexagon_row, row_columns as columns_of, row_count as rows_of, row_text as row_by, shape_text as text_of};
ghost use Rattle.tl_text.specs.Words.{max_order};

use crate::Shape;
use std::alloc::{AllocError, Global};

fn header(shape: Shape) -> &'static [u8]
    ensures { result.now ≡ header_of shape }
{
    match shape {
        Shape::Hexagon => b"triangle",
        _ => b"square",
    }
}

fn row_count(shape: Shape, order: u32) -> u32
    requires { order ≤ 512 }
    ensures { result ≡ rows_of shape order }
{
    match shape {
        Shape::Staircase => order,
        _ => 2 * order,
    }
}

// The first and the last column of a row in the upper half of a hexagon.
fn hexagon_columns(order: u32, i: u32) -> (u32, u32)
    requires upper { i < order }
    requires small { order ≤ 512 }
    ensures { result ≡ hexagon_row order i }
{
    let odd = (order - 1) % 2;
    (order - 1 - i + odd, 3 * order - 1 + i + odd)
}

// The first and the last column of a row.
fn row_columns(shape: Shape, order: u32, i: u32) -> (u32, u32)
    requires row { i < rows_of shape order }
    requires small { order ≤ 512 }
    ensures columns { result ≡ columns_of shape order i }
    ensures within { result.1 < 2 ^ 16 }
{
    match shape {
        Shape::Aztec if i < order => (order - 1 - i, order + i),
        Shape::Aztec => (i - order, 3 * order - 1 - i),
        Shape::Hexagon if i < order => hexagon_columns(order, i),
        Shape::Hexagon => hexagon_columns(order, 2 * order - 1 - i),
        Shape::Hourglass if i >= order => (i - 1, 2 * order - 2),
        _ => (0, i),
    }
}

// `.` before the first column, and `#` from there to the last.
fn row_text(alloc: Global, columns: (u32, u32)) -> Result<Vec<u8>, AllocError>
    requires { columns.1 < 2 ^ 16 }
    ensures { IfOk result (λ row. row.items ≡ row_by columns) }
{
    let (first, last) = columns;
    let mut row = vec![in alloc; b'.'; first as usize]?;
    row.resize(first.max(last + 1) as usize, b'#')?;
    Ok(row)
}

/// The text of the region of a shape.
pub fn shape_text(alloc: Global, shape: Shape, order: u32) -> Result<Vec<u8>, AllocError>
    requires { order ≤ max_order shape }
    ensures { IfOk result (λ text. text.items ≡ text_of shape order) }
{
    let mut text = Vec::from_slice(alloc, header(shape))?;
    text.push(b'\n')?;
    for i in 0..row_count(shape, order) {
        let row = row_text(alloc, row_columns(shape, order, i))?;
        text.extend_from_slice(row.as_slice())?;
        text.push(b'\n')?;
    }
    Ok(text)
}
