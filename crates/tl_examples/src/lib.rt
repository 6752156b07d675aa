//! Small regions, drawings, samples and texts, by evaluation: something meets each definition, and something near
//! doesn't.
//!
//! The crate has no code.
#![tactic(auto)]
