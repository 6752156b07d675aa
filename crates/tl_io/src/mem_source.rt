//! A source over memory.

ghost use Rattle.std.specs.Prelude.{◌≡◌, ◌≤◌, ◌<◌, length, take, Some};
ghost use Rattle.tl_io.specs.Memory.{read_answer, read_count, after_read};
ghost use Rattle.tl_io.specs.Reads.{IsGivenCount};

use crate::source::{Source, Took};
use std::marker::Model;

/// A source over memory that gives its bytes in pieces and fails at chosen reads, for tests.
#[derive(Drop)]
pub struct MemSource {
    bytes: Vec<u8>,
    start: usize,
    piece: usize,
    fails: Vec<u64>,
    calls: u64,
    faults: u64,
}

impl Model for MemSource {
    ghost use Rattle.std.specs.Prelude.{◌≤◌, drop, vec_len};
    ghost use Rattle.tl_io.specs.Memory as memory;

    ghost Value = { memory.Source };

    ghost view = { λ s. record { left = drop s.start s.bytes.items; piece = s.piece; fails = s.fails.items; calls = s.calls; faults = s.faults } };

    ghost invariant = { λ s. (s.start ≤ vec_len s.bytes) × (1 ≤ s.piece) };
}

impl MemSource {
    /// A source with these bytes left. A read gives at most `piece` bytes, and fails where its number,
    /// counted from 0, stands in `fails`.
    pub fn new(bytes: Vec<u8>, piece: usize, fails: Vec<u64>) -> MemSource
        requires { 1 ≤ piece }
        ensures { result
            ≡ record { left = bytes.items; piece = piece; fails = fails.items; calls = 0; faults = 0 } }
    {
        MemSource {
            bytes,
            start: 0,
            piece,
            fails,
            calls: 0,
            faults: 0,
        }
    }
}

impl Source for MemSource {
    ghost state = { λ s. record { left = Some s.left; faults = s.faults } };

    /// Gives the least of `piece`, the buffer's length and the number of bytes left.
    fn read(&mut self, buf: &mut [u8]) -> Took
        requires { 0 < length buf.old }
        ensures count { IsGivenCount result buf.new }
        ensures answer { result ≡ read_answer self.old (length buf.new) }
        ensures given { take (read_count result) buf.new ≡ take (read_count result) self.old.left }
        ensures after { self.new ≡ after_read self.old (length buf.new) }
    {
        let call = self.calls;
        self.calls = call.saturating_add(1);
        if self.fails.contains(&call) {
            self.faults = self.faults.saturating_add(1);
            return Took::Failed;
        }
        let left = &self.bytes[self.start..];
        if left.is_empty() {
            return Took::End;
        }
        let count = self.piece.min(buf.len()).min(left.len());
        buf[..count].copy_from_slice(&left[..count]);
        self.start += count;
        Took::Bytes(count)
    }
}
