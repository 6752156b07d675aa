//! Sinks of bytes.

ghost use Rattle.std.specs.Prelude.{◌≡◌, ◌≢◌, ◌<◌, length};
ghost use Rattle.std.specs.Io.KnownBytes.{append_known};
ghost use Rattle.tl_io.specs.Counts.{Rose};
ghost use Rattle.tl_io.specs.States.{SinkState};
ghost use Rattle.tl_io.specs.Writes.{taken_by, IsTakenCount};
ghost use Rattle.tl_io.specs.declared.sink.Gave.TheVariants.{Failed};

/// What a write took.
#[derive(Clone, Copy, PartialEq, Eq, Debug)]
pub enum Gave {
    /// So many of the first bytes, at least one.
    Bytes(usize),
    /// The write failed, and nothing was taken.
    Failed,
}

/// A sink of bytes.
pub trait Sink {
    /// The bytes that it holds, where it tells them, and how many of its writes have failed.
    ghost state: { Self → SinkState };

    /// Appends some of the first bytes. There is at least one.
    fn write(&mut self, bytes: &[u8]) -> Gave
        requires { 0 < length bytes.now }
        ensures count { IsTakenCount result bytes.now }
        ensures bytes { (state self.new).held ≡ append_known (state self.old).held
            (taken_by result bytes.now) }
        ensures failed { result ≡ Failed → Rose (state self.old).faults (state self.new).faults }
        ensures steady { result ≢ Failed → (state self.new).faults ≡ (state self.old).faults };
}
