//! The standard streams as source and sink. They tell nothing of content.

ghost use Rattle.std.specs.Prelude.{◌≡◌, ◌≢◌, ◌<◌, None, length};
ghost use Rattle.tl_io.specs.Counts.{Rose};
ghost use Rattle.tl_io.specs.Reads.{IsGivenCount, IsReadOf};
ghost use Rattle.tl_io.specs.declared.source.Took.TheVariants.{Failed};

use crate::sink::{Gave, Sink};
use crate::source::{Source, Took};
use std::io::Read;
use std::marker::Model;

/// Standard input. It is seen as the bytes that the runtime's reader has left, where that tells them, and the
/// number of reads that failed.
#[derive(Drop)]
pub struct StdSource<R: Input + Drop> {
    reader: R::Reader,
    faults: u64,
}

impl<R: Input + Drop> Model for StdSource<R> {
    ghost use Rattle.tl_io.specs.States.{SourceState};

    ghost Value = { SourceState };

    ghost view = { λ s. record { left = R.Reader.remaining s.reader; faults = s.faults } };
}

impl<R: Input + Drop> StdSource<R> {
    /// Standard input, of which nothing has failed.
    pub fn new(rt: R) -> StdSource<R>
        ensures { result.faults ≡ 0 }
    {
        StdSource {
            reader: rt.reader(),
            faults: 0,
        }
    }
}

impl<R: Input + Drop> Source for StdSource<R> {
    // A reader that told nothing may tell something later, and a source may not: so nothing is handed on.
    ghost state = { λ s. record { left = None; faults = s.faults } };

    fn read(&mut self, buf: &mut [u8]) -> Took
        requires { 0 < length buf.old }
        ensures count { IsGivenCount result buf.new }
        ensures read { IsReadOf result self.old.left self.new.left buf.new }
        ensures failed { result ≡ Failed → Rose self.old.faults self.new.faults }
        ensures steady { result ≢ Failed → self.new.faults ≡ self.old.faults }
    {
        match self.reader.read(buf) {
            Ok(0) => Took::End,
            Ok(count) => Took::Bytes(count),
            Err(_) => {
                self.faults = self.faults.saturating_add(1);
                Took::Failed
            }
        }
    }
}

/// Standard output. It tells nothing of its content, and is seen as the number of its writes that failed.
#[derive(Drop)]
pub struct StdSink<R: Print + Drop> {
    rt: R,
    faults: u64,
}

impl<R: Print + Drop> Model for StdSink<R> {
    ghost use Rattle.std.specs.Prelude.{ℕ};

    ghost Value = { ℕ };

    ghost view = { λ s. s.faults };
}

impl<R: Print + Drop> StdSink<R> {
    /// Standard output, of which nothing has failed.
    pub fn new(rt: R) -> StdSink<R>
        ensures { result ≡ 0 }
    {
        StdSink { rt, faults: 0 }
    }
}

impl<R: Print + Drop> Sink for StdSink<R> {
    ghost state = { λ count. record { held = None; faults = count } };

    /// A write that takes nothing is an error.
    fn write(&mut self, bytes: &[u8]) -> Gave {
        match self.rt.write_some(bytes) {
            Ok(0) | Err(_) => {
                self.faults = self.faults.saturating_add(1);
                Gave::Failed
            }
            Ok(count) => Gave::Bytes(count),
        }
    }
}
