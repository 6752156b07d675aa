//! Sweeps of both ends of a pair of tilings at once, in strings of bits.
#![tactic(auto)]

mod slots;
mod sweeping;
#[cfg(test)]
mod tests;

pub use slots::Slots;
pub use sweeping::sweep_both;
