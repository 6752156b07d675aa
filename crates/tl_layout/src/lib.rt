//! Where the corners of a region stand in strings of bits, and how the random bits of a time come to their slots.
#![tactic(auto)]

mod cutting;
mod layout;
mod piece;
mod pieces;
mod slots;
mod spots;
#[cfg(test)]
mod tests;

pub use layout::{Layout, SIZE_LIMIT};
pub use piece::Pieces;
pub use slots::{free_slots, mark_slots};
