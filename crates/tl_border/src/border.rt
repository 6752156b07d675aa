//! How a border is opened.
ghost use Rattle.std.specs.Prelude.{◌≡◌, All, IfOk, vec_len};
ghost use Rattle.tl_border.specs.declared.row.Side.TheVariants.{Upper, Lower};
ghost use Rattle.tl_border.specs.Ends.{fresh_end, IsOfLength};

use crate::end::End;
use crate::job::RowJob;
use crate::line::{Line, LinePass, open_line};
use crate::row::{Row, Side};
use std::alloc::{AllocError, Global};
use std::marker::Brand;
use std::sync::Arc;

/// The border between two bands of rows.
pub struct Border;

/// The two ends of a border, and the rows that they hand to and fro.
#[derive(Drop)]
pub struct Opened {
    pub upper: End,
    pub lower: End,
    pub rows: Vec<Row>,
}

/// How many rows go to and fro.
const SPARE: usize = 4;

fn blank_row(alloc: Global, length: u32) -> Result<Row, AllocError>
    ensures { IfOk result (λ row. IsOfLength length row) }
{
    let words = Vec::from_elem(alloc, 0, length as usize)?;
    Ok(Row { words })
}

fn blank_rows(alloc: Global, length: u32) -> Result<Vec<Row>, AllocError>
    ensures count { IfOk result (λ rows. vec_len rows ≡ 4) }
    ensures lengths { IfOk result (λ rows. All (IsOfLength length) rows.items) }
{
    let mut rows = Vec::with_capacity(alloc, SPARE)?;
    for _ in 0..SPARE {
        rows.push(blank_row(alloc, length)?)?;
    }
    Ok(rows)
}

impl Border {
    /// The two ends of a border for this job, with nothing sent, and four rows of so many words.
    pub fn open<J: RowJob>(alloc: Global, job: &J, length: u32) -> Result<Opened, AllocError>
        ensures ends { IfOk result (λ o. (o.upper ≡ fresh_end (J.rows job.now) Upper) × (o.lower ≡ fresh_end (J.rows job.now) Lower)) }
        ensures count { IfOk result (λ o. vec_len o.rows ≡ 4) }
        ensures lengths { IfOk result (λ o. All (IsOfLength length) o.rows.items) }
    {
        let rows = blank_rows(alloc, length)?;
        let (down, upper_sender, lower_receiver) = open_line::<Brand, J>(alloc, job, Side::Upper)?;
        let (up, lower_sender, upper_receiver) = open_line::<Brand, J>(alloc, job, Side::Lower)?;
        let down = Arc::new(alloc, down)?;
        let up = Arc::new(alloc, up)?;
        let upper = End {
            outgoing: Arc::try_clone(&down)?,
            incoming: Arc::try_clone(&up)?,
            sender: upper_sender,
            receiver: upper_receiver,
        };
        let lower = End {
            outgoing: up,
            incoming: down,
            sender: lower_sender,
            receiver: lower_receiver,
        };
        Ok(Opened { upper, lower, rows })
    }
}
