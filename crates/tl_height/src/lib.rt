//! Height functions of tilings: one number for each corner of a region.
//!
//! Height functions after W. P. Thurston, "Conway's Tiling Groups".
#![tactic(auto)]

mod filling;
mod heights;
mod letters;
mod standing;
#[cfg(test)]
mod tests;

pub use filling::of_tiling;
pub use heights::Heights;
pub use standing::Standing;
