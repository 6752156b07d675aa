//! The border between two bands of rows, over which they hand each other rows.
#![tactic(auto)]

mod border;
mod end;
mod job;
mod line;
mod row;

pub use border::{Border, Opened};
pub use end::End;
pub use job::{JobRows, ListedRows, RowJob};
pub use row::{Row, RowBits, Side, slots_of_rows};

#[cfg(test)]
mod tests;
