//! Sources and sinks over memory, and reading and writing all through them.

ghost use Rattle.std.specs.Prelude.{◌≤◌};

use crate::{
    FreeGate, Gave, InFault, MemSink, MemSource, Sink, Source, StdSink, StdSource, Took, read_all,
    write_all,
};
use std::alloc::{AllocError, Global};
use std::test::Fail;

mod standard;

fn source(alloc: Global, bytes: &[u8], piece: usize, fails: &[u64]) -> Result<MemSource, AllocError>
    requires { 1 ≤ piece }
{
    Ok(MemSource::new(
        Vec::from_slice(alloc, bytes)?,
        piece,
        Vec::from_slice(alloc, fails)?,
    ))
}

#[test]
fn a_source_gives_pieces_fails_by_number_and_ends(rt: HostRuntime) -> Result<(), AllocError> {
    let mut source = source(rt.alloc(), b"abcdef", 4, &[1])?;
    let mut buf = [0u8; 8];
    assert_eq!(rt; source.read(&mut buf), Took::Bytes(4));
    assert_eq!(rt; &buf[..4], b"abcd".as_slice());
    assert_eq!(rt; source.read(&mut buf), Took::Failed);
    let mut one = [0u8; 1];
    assert_eq!(rt; source.read(&mut one), Took::Bytes(1));
    assert_eq!(rt; one[0], b'e');
    assert_eq!(rt; source.read(&mut buf), Took::Bytes(1));
    assert_eq!(rt; source.read(&mut buf), Took::End);
    Ok(())
}

#[test]
fn a_sink_takes_pieces_up_to_its_room(rt: HostRuntime) -> Result<(), AllocError> {
    let mut sink = MemSink::new(rt.alloc(), 7, 5, Vec::from_slice(rt.alloc(), &[1])?)?;
    assert_eq!(rt; sink.write(b"abcdefgh"), Gave::Bytes(5));
    assert_eq!(rt; sink.write(b"fgh"), Gave::Failed);
    assert_eq!(rt; sink.write(b"fgh"), Gave::Bytes(2));
    assert_eq!(rt; sink.write(b"h"), Gave::Failed);
    assert_eq!(rt; sink.held(), b"abcdefg".as_slice());
    Ok(())
}

#[test]
fn all_bytes_are_read_up_to_the_limit(rt: HostRuntime) -> Result<(), AllocError> {
    for (limit, want) in [(6usize, true), (7, true), (5, false), (0, false)] {
        let mut source = source(rt.alloc(), b"abcdef", 4, &[])?;
        match read_all(rt.alloc(), &mut source, limit) {
            Ok(bytes) => {
                assert!(rt; want, "limit {limit}");
                assert_eq!(rt; bytes.as_slice(), b"abcdef".as_slice());
            }
            Err(fault) => {
                assert!(rt; !want, "limit {limit}");
                assert_eq!(rt; fault, InFault::InputTooLong);
            }
        }
    }
    Ok(())
}

// The source fails once and then goes on, so that a read which is tried again shows.
#[test]
fn a_failed_read_stops_reading(rt: HostRuntime) -> Result<(), Fail> {
    for (fails, left) in [(0, b"abcdef".as_slice()), (1, b"ef"), (2, b"")] {
        let mut source = source(rt.alloc(), b"abcdef", 4, &[fails])?;
        assert!(rt;
            matches!(
                read_all(rt.alloc(), &mut source, 100),
                Err(InFault::ReadFault)
            ),
            "read {fails}"
        );
        let rest = read_all(rt.alloc(), &mut source, 100)?;
        assert_eq!(rt; rest.as_slice(), left, "after read {fails}");
    }
    Ok(())
}

// The read after the one that tells the end fails, so that it shows.
#[test]
fn nothing_is_read_after_the_end(rt: HostRuntime) -> Result<(), Fail> {
    let mut source = source(rt.alloc(), b"abcdef", 4, &[3])?;
    let bytes = read_all(rt.alloc(), &mut source, 100)?;
    assert_eq!(rt; bytes.as_slice(), b"abcdef".as_slice());
    let mut buf = [0u8; 8];
    assert_eq!(rt; source.read(&mut buf), Took::Failed);
    Ok(())
}

#[test]
fn all_bytes_are_written_in_pieces(rt: HostRuntime) -> Result<(), AllocError> {
    let mut sink = MemSink::new(rt.alloc(), 64, 5, Vec::new(rt.alloc()))?;
    assert!(rt; write_all(&mut sink, b"drop no byte").is_ok());
    assert!(rt; write_all(&mut sink, b"").is_ok());
    assert_eq!(rt; sink.held(), b"drop no byte".as_slice());
    Ok(())
}

// The sink fails once and then goes on, so that a write which is tried again shows.
#[test]
fn a_failed_write_leaves_what_was_taken(rt: HostRuntime) -> Result<(), AllocError> {
    for (fails, held) in [(0, b"".as_slice()), (1, b"drop "), (2, b"drop no by")] {
        let mut sink = MemSink::new(rt.alloc(), 64, 5, Vec::from_slice(rt.alloc(), &[fails])?)?;
        assert!(rt;
            write_all(&mut sink, b"drop no byte").is_err(),
            "write {fails}"
        );
        assert_eq!(rt; sink.held(), held, "write {fails}");
    }
    Ok(())
}

fn crosses_threads<T: Send + Sync + Drop>(_value: T) {}

#[test]
fn what_workers_hold_crosses_threads(rt: HostRuntime) -> Result<(), AllocError> {
    crosses_threads(source(rt.alloc(), b"", 1, &[])?);
    crosses_threads(MemSink::new(rt.alloc(), 0, 1, Vec::new(rt.alloc()))?);
    crosses_threads(StdSource::new(rt));
    crosses_threads(StdSink::new(rt));
    crosses_threads(FreeGate);
    Ok(())
}
