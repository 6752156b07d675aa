//! The border between two bands, opened for one stretch.

ghost use Rattle.std.specs.Prelude.{◌≡◌, ◌+◌, ℕ, IfOk, None};
ghost use Rattle.tl_courses.specs.Courses.{IsCourseOf};
ghost use Rattle.tl_band.specs.Edges.{AreOfSize, IsLinkAt};

use crate::edge::Link;
use crate::stretch::{Handover, Sweeping};
use std::alloc::{AllocError, Global};
use tl_border::{Border, End, Opened, Row};

// How many rows an end has at first. It gives one away for each that it sends, and has one more for each that comes.
const SPARE: usize = 2;

// Moves the last row, where there is one and room for it.
fn move_row(from: &mut Vec<Row>, to: &mut Vec<Row>)
    ensures from { (strips : ℕ) → AreOfSize strips from.old.items → AreOfSize strips from.new.items }
    ensures to { (strips : ℕ) → AreOfSize strips from.old.items → AreOfSize strips to.old.items → AreOfSize strips to.new.items }
{
    if let Some(row) = from.pop() {
        if to.len() < to.capacity() {
            to.push_reserved(row);
        }
    }
}

// Two rows of those that are left, to spare.
fn take_spare(alloc: Global, rows: &mut Vec<Row>) -> Result<Vec<Row>, AllocError>
    ensures left { (strips : ℕ) → AreOfSize strips rows.old.items → AreOfSize strips rows.new.items }
    ensures taken { (strips : ℕ) → AreOfSize strips rows.old.items → IfOk result (λ spare. AreOfSize strips spare.items) }
{
    let mut spare = Vec::with_capacity(alloc, SPARE)?;
    move_row(rows, &mut spare);
    move_row(rows, &mut spare);
    Ok(spare)
}

fn link(end: End, spare: Vec<Row>) -> Link
    ensures end { result.end ≡ end }
    ensures spare { result.spare ≡ spare }
    ensures unsent { result.unsent ≡ None }
    ensures received { result.received ≡ 0 }
{
    Link {
        end,
        unsent: None,
        received: 0,
        spare,
    }
}

/// Opens the border below a row of words: the ends of the band above it and of the band below.
///
/// # Errors
/// Want of memory.
pub fn open<S: Sweeping>(alloc: Global, stretch: &S, row: usize) -> Result<(Link, Link), AllocError>
    requires course { IsCourseOf (S.region stretch.now) (S.bits stretch.now) (S.course stretch.now) }
    ensures above { IfOk result (λ links. IsLinkAt (S.course stretch.now) row (row + 1) 0 links.0) }
    ensures below { IfOk result (λ links. IsLinkAt (S.course stretch.now) (row + 1) row 0 links.1) }
{
    let handover = Handover { stretch, row };
    let Opened {
        upper,
        lower,
        mut rows,
    } = Border::open(alloc, &handover, stretch.layout().strips as u32)?;
    let above = take_spare(alloc, &mut rows)?;
    let below = take_spare(alloc, &mut rows)?;
    Ok((link(upper, above), link(lower, below)))
}
