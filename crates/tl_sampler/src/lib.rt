//! Samples of the tilings of a region by coupling from the past, after J. Propp and D. Wilson.
#![tactic(auto)]

mod sampler;
mod sampling;
#[cfg(test)]
mod tests;

pub use sampler::Sampler;
pub use sampling::Sampling;
