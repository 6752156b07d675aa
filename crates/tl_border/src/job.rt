//! What a border is opened for.
use crate::row::{Row, RowBits};

/// The rows that each side sends, in their order. No value of it is made.
pub struct JobRows {
    pub upper: [RowBits; 0],
    pub lower: [RowBits; 0],
}

/// A job fixes what each side of a border sends. Contracts alone read its lists.
pub trait RowJob {
    ghost use Rattle.tl_border.specs.declared.job.JobRows.{JobRows};

    ghost rows: { Self → JobRows };
}

/// A job that holds its two lists.
#[derive(Drop)]
pub struct ListedRows {
    pub upper: Vec<Row>,
    pub lower: Vec<Row>,
}

impl RowJob for ListedRows {
    ghost use Rattle.tl_border.specs.Rows.{listed};

    ghost rows = { listed };
}
