//! The claim board, on which several workers draw numbers, post pieces and take them.
#![tactic(auto)]

mod board;
mod caller;
mod closing;
mod opening;
mod piece;
mod plays;
mod rule;
mod views;

pub use board::Board;
pub use caller::{Caller, Claim, Left};
pub use piece::Piece;
pub use views::CallerView;

#[cfg(test)]
mod tests;
