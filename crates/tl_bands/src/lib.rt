//! Bands of rows: how the rows of a region are cut into them.
#![tactic(auto)]

mod cut;
mod fault;

pub use cut::Cut;
pub use fault::CutFault;

#[cfg(test)]
mod tests;
