//! The chain of the tilings of a region, by packed tilings: both ends go through all times in the same strings of bits.
#![tactic(auto)]

mod packed_chain;

pub use packed_chain::PackedChain;
