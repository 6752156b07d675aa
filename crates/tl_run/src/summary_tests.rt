//! Runs of `gen` with its flag, over memory.

use crate::run::run_quiet;
use crate::status::Status;
use std::alloc::{AllocError, Global};
use std::thread::Threads;
use tl_io::{FreeGate, MemSink, MemSource, Source, Took};

// The status of `gen --summary` with these options, what it left of its source, and what it wrote to a sink with so
// much room.
fn summarized<R: Threads + Sync>(
    rt: &R,
    alloc: Global,
    options: &[&str],
    room: usize,
) -> Result<(Status, MemSource, MemSink), AllocError> {
    let mut words = Vec::new(alloc);
    words.push("gen")?;
    words.push("--summary")?;
    words.extend_from_slice(options)?;
    let bytes = Vec::from_slice(alloc, b"abc")?;
    let mut source = MemSource::new(bytes, 9, Vec::new(alloc));
    let mut sink = MemSink::new(alloc, room, 7, Vec::new(alloc))?;
    let status = run_quiet(rt, alloc, &words, &mut source, &mut sink, &FreeGate);
    Ok((status, source, sink))
}

#[test]
fn each_shape_has_its_summary(rt: HostRuntime) -> Result<(), AllocError> {
    let cases: [(&[&str], &[u8], Status); 13] = [
        (
            &["--shape", "aztec", "--order", "2"],
            b"cells 12\ncorners 5\nspan 5\nsample 0 start 4 rank 1\n",
            Status::Answered,
        ),
        (
            &["--shape=aztec", "--order=2", "--bound=1"],
            b"cells 12\ncorners 5\nspan 5\nsample 0 late\n",
            Status::Late,
        ),
        (
            &["--shape=aztec", "--order=2", "--workers=4", "--bands", "7"],
            b"cells 12\ncorners 5\nspan 5\nsample 0 start 4 rank 1\n",
            Status::Answered,
        ),
        (
            &["--shape", "hexagon", "--order", "1"],
            b"cells 6\ncorners 1\nspan 1\nsample 0 start 1 rank 0\n",
            Status::Answered,
        ),
        (
            &["--shape", "staircase", "--order", "3"],
            b"cells 6\ncorners 1\nnone open 8\n",
            Status::Refuted,
        ),
        (
            &["--shape", "hourglass", "--order", "3"],
            b"cells 12\ncorners 2\nnone gap\n",
            Status::Refuted,
        ),
        (
            &["--shape", "staircase", "--order", "1"],
            b"cells 1\ncorners 0\nnone open 4\n",
            Status::Refuted,
        ),
        (
            &["--shape", "staircase", "--order", "512", "--count", "65536"],
            b"too large 17213423616\n",
            Status::TooLarge,
        ),
        (
            &["--shape=staircase", "--order=33", "--count=65536"],
            b"too large 73531392\n",
            Status::TooLarge,
        ),
        (
            &["--shape", "aztec", "--order", "16"],
            b"cells 544\ncorners 481\nspan 1496\nsample 0 start 512 rank 777\n",
            Status::Answered,
        ),
        (
            &["--shape", "aztec", "--order", "16", "--workers", "4"],
            b"cells 544\ncorners 481\nspan 1496\nsample 0 start 512 rank 777\n",
            Status::Answered,
        ),
        (
            &["--shape", "staircase", "--order", "512"],
            b"cells 131328\ncorners 130305\nnone open 1024\n",
            Status::Refuted,
        ),
        (
            &["--shape", "hourglass", "--order", "256"],
            b"cells 65792\ncorners 64770\nnone gap\n",
            Status::Refuted,
        ),
    ];
    for (options, reply, wanted) in cases {
        let (status, mut source, sink) = summarized(&rt, rt.alloc(), options, 300)?;
        assert_eq!(rt; sink.held(), reply, "{options:?}");
        assert_eq!(rt; status, wanted, "{options:?}");
        let mut buf = [0u8; 8];
        assert_eq!(rt; source.read(&mut buf), Took::Bytes(3), "{options:?}");
    }
    Ok(())
}

#[test]
fn a_failed_write_cuts_the_summary(rt: HostRuntime) -> Result<(), AllocError> {
    let options: [&str; 6] = ["--shape", "aztec", "--order", "1", "--count", "2"];
    let (status, _, whole) = summarized(&rt, rt.alloc(), &options, 300)?;
    assert_eq!(rt; status, Status::Answered);
    assert_eq!(rt; whole.held().len(), 73);
    for room in [0usize, 5, 8, 25, 27, 40, 72] {
        let (status, _, sink) = summarized(&rt, rt.alloc(), &options, room)?;
        assert_eq!(rt; sink.held(), &whole.held()[..room], "{room}");
        assert_eq!(rt; status, Status::WriteFault, "{room}");
    }
    Ok(())
}
