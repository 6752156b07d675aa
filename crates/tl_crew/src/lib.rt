//! The bands of a region, which two hands sweep through the stretches of a draw.
#![tactic(auto)]

mod apart;
mod cuts;
mod dealt;
mod hands;
mod share;
mod stretches;
#[cfg(test)]
mod tests;

pub use apart::{Hand, finish, sweep_apart};
pub use cuts::hands_of;
pub use dealt::deal;
pub use hands::{Watch, hand};
pub use share::Share;
pub use stretches::sweep_by_hands;
