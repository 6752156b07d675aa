//! Sums that workers fill.
ghost use Rattle.std.specs.Prelude.{◌≡◌, ◌+◌, ◌<◌, ◌≤◌, length, All, IfOk};

use super::*;
use std::alloc::{AllocError, Global};
use std::sync::atomic::{AtomicU64, Ordering};
use std::test::Fail;
use std::thread::Threads;
use tl_board::Piece;
use tl_io::{FreeGate, Gate};

// A number's piece is filled with the sum of the number and the job's start.
#[derive(Drop)]
struct Sum {
    start: u32,
    sum: u64,
}

impl Piece for Sum {
    type Job = u32;

    ghost job = { λ p. p.start };

    ghost filled_for = { λ p n. p.sum ≡ p.start + n };
}

// Fills the pieces of the job with this start.
#[derive(Drop)]
struct Adder {
    start: u32,
}

impl Worker<Sum> for Adder {
    ghost serves = { λ adder start. adder.start ≡ start };

    fn fill(&mut self, number: u32, blank: Sum) -> Sum {
        Sum {
            start: blank.start,
            sum: u64::from(self.start) + u64::from(number),
        }
    }
}

fn blanks(alloc: Global, start: u32, count: usize) -> Result<Vec<Sum>, AllocError>
    ensures count { IfOk result (λ blanks. length blanks.items ≡ count) }
    ensures job { IfOk result (λ blanks. All (λ p. p.start ≡ start) blanks.items) }
{
    let mut blanks = Vec::with_capacity(alloc, count)?;
    for index in 0..count {
        blanks.push(Sum { start, sum: 0 })?;
    }
    Ok(blanks)
}

fn adders(alloc: Global, start: u32, count: usize) -> Result<Vec<Adder>, AllocError>
    ensures count { IfOk result (λ adders. length adders.items ≡ count) }
    ensures start { IfOk result (λ adders. All (λ a. a.start ≡ start) adders.items) }
{
    let mut adders = Vec::with_capacity(alloc, count)?;
    for index in 0..count {
        adders.push(Adder { start })?;
    }
    Ok(adders)
}

// The sums from 7 on, as so many workers fill them.
fn sums<R: Threads + Sync, G: Gate + Sync>(
    rt: &R,
    alloc: Global,
    count: usize,
    workers: usize,
    gate: &G,
) -> Result<Vec<u64>, AllocError>
    requires count { (0 < count) × (count ≤ 65536) }
    requires workers { (0 < workers) × (workers ≤ 64) }
{
    let blanks = blanks(alloc, 7, count)?;
    let adders = adders(alloc, 7, workers)?;
    let pieces = fill_all(rt, alloc, blanks, adders, gate)?;
    let mut sums = Vec::with_capacity(alloc, count)?;
    for piece in pieces {
        sums.push(piece.sum)?;
    }
    Ok(sums)
}

#[test]
fn two_workers_fill_each_number_in_its_place(rt: HostRuntime) -> Result<(), Fail> {
    let sums = sums(&rt, rt.alloc(), 1000, 2, &FreeGate)?;
    assert_eq!(rt; sums.len(), 1000);
    for number in 0..1000 {
        assert_eq!(rt; sums.get(number).copied(), Some(7 + number as u64));
    }
    Ok(())
}

#[test]
fn of_64_workers_one_fills_the_one_blank(rt: HostRuntime) -> Result<(), Fail> {
    let sums = sums(&rt, rt.alloc(), 1, 64, &FreeGate)?;
    assert_eq!(rt; sums.as_slice(), [7].as_slice());
    Ok(())
}

// Counts the calls of each kind, and what is told of workers and numbers.
#[derive(Drop)]
struct CountingGate {
    passes: AtomicU64,
    posts: AtomicU64,
    numbers: AtomicU64,
    strange: AtomicU64,
}

impl Gate for CountingGate {
    fn pass(&self, worker: u32, sample: u32) {
        self.passes.fetch_add(1, Ordering::SeqCst);
        self.numbers.fetch_add(u64::from(sample), Ordering::SeqCst);
        if worker >= 3 {
            self.strange.fetch_add(1, Ordering::SeqCst);
        }
    }

    fn posted(&self, worker: u32, sample: u32) {
        self.posts.fetch_add(1, Ordering::SeqCst);
        if worker >= 3 || sample >= 10 {
            self.strange.fetch_add(1, Ordering::SeqCst);
        }
    }

    fn hand(&self, _worker: u32, _hand: u32, _sample: u32) {
        self.strange.fetch_add(1, Ordering::SeqCst);
    }
}

#[test]
fn the_gate_is_told_before_and_after_each_piece(rt: HostRuntime) -> Result<(), Fail> {
    let gate = CountingGate {
        passes: AtomicU64::new(0),
        posts: AtomicU64::new(0),
        numbers: AtomicU64::new(0),
        strange: AtomicU64::new(0),
    };
    sums(&rt, rt.alloc(), 10, 3, &gate)?;
    assert_eq!(rt; gate.passes.load(Ordering::SeqCst), 10);
    assert_eq!(rt; gate.posts.load(Ordering::SeqCst), 10);
    assert_eq!(rt; gate.numbers.load(Ordering::SeqCst), 45);
    assert_eq!(rt; gate.strange.load(Ordering::SeqCst), 0);
    Ok(())
}
