//! Regions: finitely many cells of one lattice, read from a text.
#![tactic(auto)]

mod fault;
mod header;
mod reading;
mod region;
mod rows;
mod rules;

pub use fault::RegionFault;
pub use reading::read_region;
pub use region::Region;
pub use tl_grid::{BoundarySide, BoundaryStep};
pub use tl_lines::rest_is_empty;

#[cfg(test)]
mod tests;
