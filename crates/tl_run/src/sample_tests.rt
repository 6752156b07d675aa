//! Runs of `sample` over memory.

use crate::run::run_quiet;
use crate::status::Status;
use std::alloc::{AllocError, Global};
use std::sync::atomic::{AtomicU64, Ordering};
use std::thread::Threads;
use tl_io::{FreeGate, Gate, MemSink, MemSource};

const TWO: &[u8] = b"square\n##\n##\n";

const FOUR: &[u8] = b"square\n####\n####\n";

// The status of `sample` with these options on an input, and what it wrote to a sink with so much room.
fn sampled<R: Threads + Sync>(
    rt: &R,
    alloc: Global,
    options: &[&str],
    input: &[u8],
    room: usize,
) -> Result<(Status, MemSink), AllocError> {
    sampled_under(rt, alloc, options, input, room, &FreeGate)
}

// The same under a gate.
fn sampled_under<R: Threads + Sync, G: Gate + Sync>(
    rt: &R,
    alloc: Global,
    options: &[&str],
    input: &[u8],
    room: usize,
    gate: &G,
) -> Result<(Status, MemSink), AllocError> {
    let mut words = Vec::new(alloc);
    words.push("sample")?;
    words.extend_from_slice(options)?;
    let bytes = Vec::from_slice(alloc, input)?;
    let mut source = MemSource::new(bytes, 1000, Vec::new(alloc));
    let mut sink = MemSink::new(alloc, room, 7, Vec::new(alloc))?;
    let status = run_quiet(rt, alloc, &words, &mut source, &mut sink, gate);
    Ok((status, sink))
}

#[test]
fn each_region_has_its_sample(rt: HostRuntime) -> Result<(), AllocError> {
    let cases: [(&[u8], &[u8]); 6] = [
        (TWO, b"sample 0 start 1\nvv\n^^\n"),
        (b"square\n###\n###\n", b"sample 0 start 1\nvvv\n^^^\n"),
        (FOUR, b"sample 0 start 2\nvvvv\n^^^^\n"),
        (b"square\n##\n", b"sample 0 start 1\n><\n"),
        (b"triangle\n###\n###\n", b"sample 0 start 1\nv><\n^><\n"),
        (
            b"square\n.##\n####\n####\n.##\n",
            b"sample 0 start 4\n.><.\nvv><\n^^><\n.><.\n",
        ),
    ];
    for (input, reply) in cases {
        let (status, sink) = sampled(&rt, rt.alloc(), &["--seed", "0"], input, 300)?;
        assert_eq!(rt; sink.held(), reply, "{input:?}");
        assert_eq!(rt; status, Status::Answered, "{input:?}");
    }
    Ok(())
}

#[test]
fn the_bound_makes_a_sample_late_and_workers_and_bands_change_nothing(
    rt: HostRuntime,
) -> Result<(), AllocError> {
    let cases: [(&[&str], &[u8], Status); 4] = [
        (&[], b"sample 0 start 2\nvvvv\n^^^^\n", Status::Answered),
        (
            &["--bound", "1"],
            b"sample 0 start 2\nvvvv\n^^^^\n",
            Status::Answered,
        ),
        (&["--bound", "0"], b"sample 0 late\n", Status::Late),
        (
            &["--workers", "4", "--bands", "7"],
            b"sample 0 start 2\nvvvv\n^^^^\n",
            Status::Answered,
        ),
    ];
    for (options, reply, wanted) in cases {
        let (status, sink) = sampled(&rt, rt.alloc(), options, FOUR, 300)?;
        assert_eq!(rt; sink.held(), reply, "{options:?}");
        assert_eq!(rt; status, wanted, "{options:?}");
    }
    Ok(())
}

#[test]
fn a_region_without_inner_corners_is_never_late(rt: HostRuntime) -> Result<(), AllocError> {
    let cases: [(&[&str], &[u8]); 2] = [
        (&["--bound=0"], b"sample 0 start 1\n><\n"),
        (
            &["--count", "3"],
            b"sample 0 start 1\n><\nsample 1 start 1\n><\nsample 2 start 1\n><\n",
        ),
    ];
    for (options, reply) in cases {
        let (status, sink) = sampled(&rt, rt.alloc(), options, b"square\n##\n", 300)?;
        assert_eq!(rt; sink.held(), reply, "{options:?}");
        assert_eq!(rt; status, Status::Answered, "{options:?}");
    }
    Ok(())
}

// So many rows and columns of cells.
fn full(alloc: Global, rows: usize, columns: usize) -> Result<Vec<u8>, AllocError> {
    let row = vec![in alloc; b'#'; columns]?;
    let mut text = Vec::from_slice(alloc, b"square\n")?;
    for _ in 0..rows {
        text.extend_from_slice(row.as_slice())?;
        text.push(b'\n')?;
    }
    Ok(text)
}

// The reply to so many samples of so many rows and columns of cells, which this text follows.
fn of_full<R: Threads + Sync>(
    rt: &R,
    alloc: Global,
    count: &str,
    side: usize,
    end: &[u8],
) -> Result<(Status, MemSink), AllocError> {
    let mut input = full(alloc, side, side)?;
    input.extend_from_slice(end)?;
    sampled(rt, alloc, &["--count", count], &input, 300)
}

#[test]
fn an_input_is_refused_before_its_size_and_that_before_its_reason(
    rt: HostRuntime,
) -> Result<(), AllocError> {
    let (status, sink) = of_full(&rt, rt.alloc(), "4096", 512, b"")?;
    assert_eq!(rt; sink.held(), b"too large 1075838976\n".as_slice());
    assert_eq!(rt; status, Status::TooLarge);
    let (status, sink) = of_full(&rt, rt.alloc(), "65536", 33, b"")?;
    assert_eq!(rt; sink.held(), b"too large 73531392\n".as_slice());
    assert_eq!(rt; status, Status::TooLarge);
    let (status, sink) = of_full(&rt, rt.alloc(), "65536", 33, b"\n#\n")?;
    assert_eq!(rt; sink.held(), b"extra text\n".as_slice());
    assert_eq!(rt; status, Status::Input);
    let (status, sink) = of_full(&rt, rt.alloc(), "1", 33, b"")?;
    assert_eq!(rt; sink.held(), b"none open 4\n".as_slice());
    assert_eq!(rt; status, Status::Refuted);
    Ok(())
}

#[test]
fn what_has_no_sample_is_answered_as_by_decide(rt: HostRuntime) -> Result<(), AllocError> {
    let cases: [(&[u8], &[u8], Status); 3] = [
        (b"square\n#\n", b"none open 4\n", Status::Refuted),
        (b"square\n##\n\n><\n", b"extra text\n", Status::Input),
        (b"square\n#x\n", b"bad byte 0 1\n", Status::Input),
    ];
    for (input, reply, wanted) in cases {
        let (status, sink) = sampled(&rt, rt.alloc(), &[], input, 300)?;
        assert_eq!(rt; sink.held(), reply, "{input:?}");
        assert_eq!(rt; status, wanted, "{input:?}");
    }
    Ok(())
}

#[test]
fn a_region_with_a_gap_has_a_reason_and_no_sample(rt: HostRuntime) -> Result<(), AllocError> {
    let input = b"square\n.#..\n####\n..#.\n".as_slice();
    let (status, sink) = sampled(&rt, rt.alloc(), &[], input, 300)?;
    assert!(rt; sink.held().starts_with(b"none gap "));
    assert_eq!(rt; status, Status::Refuted);
    Ok(())
}

#[test]
fn a_failed_write_cuts_the_samples(rt: HostRuntime) -> Result<(), AllocError> {
    let options: [&str; 2] = ["--count", "2"];
    let (status, whole) = sampled(&rt, rt.alloc(), &options, TWO, 300)?;
    assert_eq!(rt; status, Status::Answered);
    assert_eq!(rt; whole.held().len(), 46);
    for room in [0usize, 3, 17, 20, 23, 30, 40, 45] {
        let (status, sink) = sampled(&rt, rt.alloc(), &options, TWO, room)?;
        assert_eq!(rt; sink.held(), &whole.held()[..room], "{room}");
        assert_eq!(rt; status, Status::WriteFault, "{room}");
    }
    Ok(())
}

#[test]
fn small_samples_are_gathered_for_one_write(rt: HostRuntime) -> Result<(), AllocError> {
    let count = ["--count", "300"];
    let (status, whole) = sampled(&rt, rt.alloc(), &count, TWO, 8000)?;
    assert_eq!(rt; status, Status::Answered);
    assert_eq!(rt; whole.held().len(), 7390);
    for workers in ["1", "2"] {
        let words = ["sample", "--count", "300", "--workers", workers];
        let bytes = Vec::from_slice(rt.alloc(), TWO)?;
        let mut source = MemSource::new(bytes, 1000, Vec::new(rt.alloc()));
        let fails = Vec::from_slice(rt.alloc(), &[1])?;
        let mut sink = MemSink::new(rt.alloc(), 8000, 8000, fails)?;
        let status = run_quiet(&rt, rt.alloc(), &words, &mut source, &mut sink, &FreeGate);
        assert_eq!(rt; status, Status::WriteFault, "{workers}");
        assert!(rt; whole.held().starts_with(sink.held()), "{workers}");
        assert!(rt; sink.held().len() > 4000, "{workers}");
    }
    Ok(())
}

#[test]
fn workers_change_no_byte(rt: HostRuntime) -> Result<(), AllocError> {
    let alone: [&str; 4] = ["--count", "9", "--bound", "1"];
    let (status, whole) = sampled(&rt, rt.alloc(), &alone, FOUR, 300)?;
    assert_eq!(rt; status, Status::Late);
    for workers in ["2", "4", "16"] {
        let options = ["--count", "9", "--bound", "1", "--workers", workers];
        let (status, sink) = sampled(&rt, rt.alloc(), &options, FOUR, 300)?;
        assert_eq!(rt; sink.held(), whole.held(), "{workers}");
        assert_eq!(rt; status, Status::Late, "{workers}");
        let (status, cut) = sampled(&rt, rt.alloc(), &options, FOUR, 50)?;
        assert!(rt; whole.held().starts_with(cut.held()), "{workers}");
        assert_eq!(rt; cut.held().len(), 50, "{workers}");
        assert_eq!(rt; status, Status::WriteFault, "{workers}");
    }
    Ok(())
}

// Holds sample 1 until sample 0 is about to be drawn, and that until sample 1 is posted: so two workers draw at once.
#[derive(Drop)]
struct CrossedGate {
    // 0, then 1 after a pass, and 2 after it was posted
    first: AtomicU64,
    second: AtomicU64,
    // calls out of their order, and holds whose turns ran out
    wrong: AtomicU64,
}

const HOLD_TURNS: u64 = 100_000_000;

impl CrossedGate {
    fn stage(&self, sample: u32) -> &AtomicU64 {
        if sample == 0 {
            &self.first
        } else {
            &self.second
        }
    }

    fn expect(&self, sample: u32, stage: u64) {
        if self.stage(sample).fetch_add(1, Ordering::SeqCst) != stage {
            self.wrong.store(1, Ordering::SeqCst);
        }
    }

    // Waits until the other sample has come so far.
    fn hold(&self, other: u32, stage: u64) {
        for _ in 0..HOLD_TURNS {
            if self.stage(other).load(Ordering::SeqCst) >= stage {
                return;
            }
        }
        self.wrong.store(1, Ordering::SeqCst);
    }
}

impl Gate for CrossedGate {
    fn pass(&self, _worker: u32, sample: u32) {
        self.expect(sample, 0);
        if sample == 0 {
            self.hold(1, 2);
        } else {
            self.hold(0, 1);
        }
    }

    fn posted(&self, _worker: u32, sample: u32) {
        self.expect(sample, 1);
    }

    fn hand(&self, _worker: u32, _hand: u32, _sample: u32) {
        self.wrong.store(1, Ordering::SeqCst);
    }
}

#[test]
fn two_workers_draw_beside_each_other(rt: HostRuntime) -> Result<(), AllocError> {
    let gate = CrossedGate {
        first: AtomicU64::new(0),
        second: AtomicU64::new(0),
        wrong: AtomicU64::new(0),
    };
    let options = ["--count", "2", "--workers", "2"];
    let (_, alone) = sampled(&rt, rt.alloc(), &["--count", "2"], TWO, 300)?;
    let (status, sink) = sampled_under(&rt, rt.alloc(), &options, TWO, 300, &gate)?;
    assert_eq!(rt; sink.held(), alone.held());
    assert_eq!(rt; status, Status::Answered);
    assert_eq!(rt; gate.first.load(Ordering::SeqCst), 2);
    assert_eq!(rt; gate.second.load(Ordering::SeqCst), 2);
    assert_eq!(rt; gate.wrong.load(Ordering::SeqCst), 0);
    Ok(())
}
