//! The chain of the tilings of a region, for coupling from the past after J. Propp and D. Wilson: the numbered bits carry the
//! heights of the bottom and the top tiling to time 0, from the starts 1, 2, 4, .., until the two meet.
#![tactic(auto)]

#[cfg(test)]
mod tests;
mod tiling_chain;

pub use tiling_chain::{TilingChain, words_of};
