//! Tilings of a region, read from drawings and printed as drawings.
#![tactic(auto)]

mod fault;
mod letters;
mod matching;
mod reading;
#[cfg(test)]
mod tests;
mod tiling;

pub use fault::DrawFault;
pub use reading::read_drawing;
pub use tiling::Tiling;
