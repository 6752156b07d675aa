//! The samples of a region, which several workers draw beside each other.
#![tactic(auto)]

mod apart;
mod draw_job;
mod drawer;
mod noted;
mod outcome;
#[cfg(test)]
mod tests;

pub use apart::draw_apart;
pub use draw_job::DrawJob;
pub use drawer::{Drawer, drawers};
pub use noted::Noted;
pub use outcome::Outcome;
