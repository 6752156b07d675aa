//! Some rows of the strings of both ends of a pair of tilings: steps of one class in them, and copies of them.
#![tactic(auto)]

mod rows;
mod squares;
mod steps;
#[cfg(test)]
mod tests;
mod triangles;

pub use rows::{copy_row, copy_rows};
pub use steps::sweep_rows;
