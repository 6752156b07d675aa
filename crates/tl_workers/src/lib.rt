//! Numbered work that workers on threads of their own share.
//!
//! A job has pieces of one kind, one for each number. `fill_all` deals them out over a claim board, whichever worker
//! comes first, and hands them back in the order of their numbers.
#![tactic(auto)]

mod filling;
mod worker;

pub use filling::fill_all;
pub use worker::Worker;

#[cfg(test)]
mod tests;
