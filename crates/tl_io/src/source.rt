//! Sources of bytes.

ghost use Rattle.std.specs.Prelude.{◌≡◌, ◌≢◌, ◌<◌, length};
ghost use Rattle.std.specs.Io.KnownBytes.{prepend_known, IsAtEnd};
ghost use Rattle.tl_io.specs.Counts.{Rose};
ghost use Rattle.tl_io.specs.Reads.{given_by, IsGivenCount};
ghost use Rattle.tl_io.specs.States.{SourceState};
ghost use Rattle.tl_io.specs.declared.source.Took.TheVariants.{End, Failed};

/// What a read gave.
#[derive(Clone, Copy, PartialEq, Eq, Debug)]
pub enum Took {
    /// So many bytes, at least one, now stand at the front of the buffer.
    Bytes(usize),
    /// No byte is left.
    End,
    /// The read failed, and nothing was taken.
    Failed,
}

/// A source of bytes.
pub trait Source {
    /// The bytes that it has left, where it tells them, and how many of its reads have failed.
    ghost state: { Self → SourceState };

    /// Takes some of the bytes that are left into the front of the buffer, which isn't empty.
    fn read(&mut self, buf: &mut [u8]) -> Took
        requires { 0 < length buf.old }
        ensures count { IsGivenCount result buf.new }
        ensures bytes { (state self.old).left ≡ prepend_known (given_by result buf.new)
            (state self.new).left }
        ensures end { result ≡ End → IsAtEnd (state self.new).left }
        ensures failed { result ≡ Failed → Rose (state self.old).faults (state self.new).faults }
        ensures steady { result ≢ Failed → (state self.new).faults ≡ (state self.old).faults };
}
