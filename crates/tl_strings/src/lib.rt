//! Strings of bits: one string for each row, cut in strips of 64 slots. A class of a sweep makes its steps at all its
//! slots at once, 64 of them to a word and two words at a time.
#![tactic(auto)]

mod ends;
mod pairs;
mod square_words;
mod squares;
#[cfg(test)]
mod tests;
mod triangle_words;
mod triangles;
mod words;

pub use ends::{join, part};
pub use squares::step_squares;
pub use triangles::step_triangles;
pub use words::Planes;
