//! Lists, orders, counts and least powers of two: what the definitions of all other crates are written with.
//!
//! The crate has no code. It knows nothing of lattices.
#![tactic(auto)]
