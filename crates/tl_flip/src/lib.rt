//! Flips: how many lead from one tiling to another, a shortest way, and flips that are made in turn.
#![tactic(auto)]

mod approach;
mod direction;
mod fault;
mod flipping;
mod gap;
mod shortest;
#[cfg(test)]
mod tests;

pub use fault::PathFault;
pub use flipping::{flip_at, walk};
pub use gap::distance;
pub use shortest::{FLIP_LIMIT, path};
