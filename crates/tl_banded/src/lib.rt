//! The chain of the tilings of a region, whose rows hands sweep beside each other.
#![tactic(auto)]

mod carry;
mod chain;
#[cfg(test)]
mod tests;

pub use carry::Company;
pub use chain::BandedChain;
