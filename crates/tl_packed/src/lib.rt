//! Tilings as strings of bits: packed from heights and unpacked again, and both ends of a
//! pair joined in one string and parted.
#![tactic(auto)]

mod ends;
mod inner;
mod masked;
mod packed;
mod strings;
#[cfg(test)]
mod tests;

pub use ends::{join_ends, part_ends};
pub use packed::Packed;
pub use strings::Strings;
