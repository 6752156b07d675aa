//! Tilings in strings of bits: the marks of heights packed into the strings of a layout, and the heights unpacked again.
#![tactic(auto)]

mod packing;
mod spots;
mod unpacking;

pub use packing::pack;
pub use unpacking::unpack;
