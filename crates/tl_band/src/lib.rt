//! One band of the rows of a region: it sweeps its own rows class after class, and hands its edge rows to its neighbours.
#![tactic(auto)]

mod band;
mod borders;
mod coins;
mod edge;
mod stretch;
mod words;

pub use band::{Band, steps};
pub use borders::open;
pub use coins::Coins;
pub use edge::{Edge, Link};
pub use stretch::{Handover, Stretch, Sweeping};
