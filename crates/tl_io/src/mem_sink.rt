//! A sink over memory.

ghost use Rattle.std.specs.Prelude.{◌≡◌, ◌≤◌, ◌<◌, length, [], IfOk, Some};
ghost use Rattle.tl_io.specs.Memory.{write_answer, after_write};
ghost use Rattle.tl_io.specs.Writes.{IsTakenCount};

use crate::sink::{Gave, Sink};
use std::alloc::{AllocError, Global};
use std::marker::Model;

/// A sink over memory that takes its bytes in pieces, has room for a number of them and fails at chosen
/// writes, for tests.
#[derive(Drop)]
pub struct MemSink {
    held: Vec<u8>,
    room: usize,
    piece: usize,
    fails: Vec<u64>,
    calls: u64,
    faults: u64,
}

impl Model for MemSink {
    ghost use Rattle.std.specs.Prelude.{◌≤◌, vec_len, vec_capacity};
    ghost use Rattle.tl_io.specs.Memory as memory;

    ghost Value = { memory.Sink };

    ghost view = { λ s. record { held = s.held.items; room = s.room; piece = s.piece; fails = s.fails.items; calls = s.calls; faults = s.faults } };

    ghost invariant = { λ s. (vec_len s.held ≤ s.room) × (s.room ≤ vec_capacity s.held) × (1 ≤ s.piece) };
}

impl MemSink {
    /// An empty sink with room for so many bytes. A write takes at most `piece` bytes, and fails where its
    /// number, counted from 0, stands in `fails`, or where all room is used.
    ///
    /// # Errors
    /// Want of memory for the room.
    pub fn new(
        alloc: Global,
        room: usize,
        piece: usize,
        fails: Vec<u64>,
    ) -> Result<MemSink, AllocError>
        requires { 1 ≤ piece }
        ensures { IfOk result (λ sink. sink
            ≡ record { held = []; room = room; piece = piece; fails = fails.items; calls = 0; faults = 0 }) }
    {
        Ok(MemSink {
            held: Vec::with_capacity(alloc, room)?,
            room,
            piece,
            fails,
            calls: 0,
            faults: 0,
        })
    }

    /// The bytes that were written.
    pub fn held(&self) -> &[u8]
        ensures { result.now ≡ self.now.held }
    {
        self.held.as_slice()
    }
}

impl Sink for MemSink {
    ghost state = { λ s. record { held = Some s.held; faults = s.faults } };

    /// Takes the least of `piece`, the number of bytes handed in and the room left.
    fn write(&mut self, bytes: &[u8]) -> Gave
        requires { 0 < length bytes.now }
        ensures count { IsTakenCount result bytes.now }
        ensures answer { result ≡ write_answer self.old (length bytes.now) }
        ensures after { self.new ≡ after_write self.old bytes.now }
    {
        let call = self.calls;
        self.calls = call.saturating_add(1);
        let left = self.room - self.held.len();
        if self.fails.contains(&call) || left == 0 {
            self.faults = self.faults.saturating_add(1);
            return Gave::Failed;
        }
        let count = self.piece.min(bytes.len()).min(left);
        if self.held.extend_from_slice(&bytes[..count]).is_err() {
            unreachable!()
        }
        Gave::Bytes(count)
    }
}
