//! Bytes that are gathered before they are written.

ghost use Rattle.std.specs.Prelude.{◌≡◌, ◌≤◌, ◌+◌, ◌++◌, [], length, OnOk, OnErr};
ghost use Rattle.tl_run.specs.Pages.{Gathers};
ghost use Rattle.tl_run.specs.Writing.{Appends, Cuts};

use std::marker::Model;
use tl_io::{Sink, WriteFault, write_all};

// No more bytes are gathered for one write.
const PAGE_SIZE: usize = 4096;

/// Bytes that are gathered for one write, and wait for it.
#[derive(Drop)]
pub struct Page {
    bytes: [u8; PAGE_SIZE],
    filled: usize,
}

impl Model for Page {
    ghost use Rattle.std.specs.Prelude.{ℕ, List, ◌≤◌, take};

    ghost Value = { List ℕ };

    ghost view = { λ s. take s.filled s.bytes };

    ghost invariant = { λ s. s.filled ≤ 4096 };
}

impl Page {
    /// An empty page.
    pub fn new() -> Page
        ensures { result ≡ [] }
    {
        Page {
            bytes: [0; PAGE_SIZE],
            filled: 0,
        }
    }

    // Puts bytes that have room behind those that wait.
    fn add(&mut self, bytes: &[u8])
        requires { length self.old + length bytes.now ≤ PAGE_SIZE }
        ensures { self.new ≡ self.old ++ bytes.now }
    {
        let end = self.filled + bytes.len();
        self.bytes[self.filled..end].copy_from_slice(bytes);
        self.filled = end;
    }

    /// Puts bytes behind those that wait. Where they have no room, what waits is written first, and what is longer than
    /// a page is then written at once.
    ///
    /// # Errors
    /// `WriteFault` where a write failed; then a beginning of what waited and of the bytes was appended, and nothing waits.
    pub fn put<K: Sink>(&mut self, bytes: &[u8], sink: &mut K) -> Result<(), WriteFault>
        ensures whole { OnOk result (Gathers self.old bytes.now self.new (K.state sink.old) (K.state sink.new)) }
        ensures cut { OnErr result (Cuts (self.old ++ bytes.now) (K.state sink.old) (K.state sink.new)) }
        ensures emptied { OnErr result (self.new ≡ []) }
    {
        if bytes.len() <= PAGE_SIZE - self.filled {
            self.add(bytes);
            return Ok(());
        }
        self.flush(sink)?;
        if bytes.len() <= PAGE_SIZE {
            self.add(bytes);
            return Ok(());
        }
        write_all(sink, bytes)
    }

    /// Writes what waits.
    ///
    /// # Errors
    /// `WriteFault` where a write failed; then a beginning of what waited was appended.
    pub fn flush<K: Sink>(&mut self, sink: &mut K) -> Result<(), WriteFault>
        ensures whole { OnOk result (Appends self.old (K.state sink.old) (K.state sink.new)) }
        ensures cut { OnErr result (Cuts self.old (K.state sink.old) (K.state sink.new)) }
        ensures emptied { self.new ≡ [] }
    {
        let waiting = self.filled;
        self.filled = 0;
        write_all(sink, &self.bytes[..waiting])
    }
}
