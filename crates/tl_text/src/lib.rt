//! The words of the command line, and the shapes of generated regions.
#![tactic(auto)]

mod fault;
mod settings;
mod shapes;
#[cfg(test)]
mod tests;
mod text;
mod values;
mod words;

pub use fault::WordsFault;
pub use shapes::shape_text;
pub use text::{Text, sample_head};
pub use words::read_words;

/// What `sample` is asked for.
#[derive(Clone, Copy, PartialEq, Eq, Debug)]
pub struct SampleJob {
    pub seed: u64,
    pub count: u32,
    pub bound: u32,
    pub workers: u32,
    pub bands: u32,
}

/// The shapes of the generated regions.
#[derive(Clone, Copy, PartialEq, Eq, Debug)]
pub enum Shape {
    Aztec,
    Hexagon,
    Staircase,
    Hourglass,
}

/// What `gen` is asked for.
#[derive(Clone, Copy, PartialEq, Eq, Debug)]
pub struct GenJob {
    pub shape: Shape,
    pub order: u32,
    pub summary: bool,
    pub job: SampleJob,
}

/// What the words of the command line ask for.
#[derive(Clone, Copy, PartialEq, Eq, Debug)]
pub enum Command {
    Check,
    Decide,
    Refute,
    Flips,
    Distance,
    Sample(SampleJob),
    Gen(GenJob),
}
