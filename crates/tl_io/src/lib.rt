//! Where bytes come from and where they go, with counted faults.
//!
//! A source and a sink are known by the bytes that they tell of and by their count of faults. A fault is
//! answered exactly where the count rose in that call: a program that answers one can show its cause, and one
//! that answers none has hidden none.
#![tactic(auto)]

mod gate;
mod mem_sink;
mod mem_source;
mod reading;
mod sink;
mod source;
mod standard;
mod writing;

pub use gate::{FreeGate, Gate};
pub use mem_sink::MemSink;
pub use mem_source::MemSource;
pub use reading::{InFault, read_all};
pub use sink::{Gave, Sink};
pub use source::{Source, Took};
pub use standard::{StdSink, StdSource};
pub use writing::{WriteFault, write_all};

#[cfg(test)]
mod tests;
