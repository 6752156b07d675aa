//! Gates, at which a test may hold a worker.

/// A gate has no meaning and no answer: a program does the same with any gate.
pub trait Gate {
    /// A worker is about to draw a sample.
    fn pass(&self, worker: u32, sample: u32);

    /// A worker has posted a sample.
    fn posted(&self, worker: u32, sample: u32);

    /// A hand of a worker has swept a class of one of its bands.
    fn hand(&self, worker: u32, hand: u32, sample: u32);
}

/// The gate that does nothing.
#[derive(Clone, Copy, PartialEq, Eq, Debug)]
pub struct FreeGate;

impl Gate for FreeGate {
    fn pass(&self, _worker: u32, _sample: u32) {}

    fn posted(&self, _worker: u32, _sample: u32) {}

    fn hand(&self, _worker: u32, _hand: u32, _sample: u32) {}
}
