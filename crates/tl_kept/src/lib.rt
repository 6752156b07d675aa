//! The random words of the times of a sample, kept as long as there is room, so that a start computes none twice.
#![tactic(auto)]

mod kept;
#[cfg(test)]
mod tests;

pub use kept::{KEPT_LIMIT, Kept};
