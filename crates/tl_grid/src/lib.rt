//! A set of cells kept on a flat array, and the questions asked of it: its parts, its pinches, its boundary, its
//! Euler count and its inner corners.
#![tactic(auto)]

mod grid;
mod inner;
mod parts;
mod patterns;
mod rings;
mod survey;
mod walk;

pub use grid::Grid;
pub use inner::{inner_corner, is_inner, number_of};
pub use parts::first_parted;
pub use rings::is_step;
pub use survey::Survey;
pub use walk::{BoundarySide, BoundaryStep, one_circuit};
