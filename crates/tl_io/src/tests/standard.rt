//! The standard streams over an input and an output that answer as they are told.

use crate::{Gave, InFault, Sink, Source, StdSink, StdSource, Took, read_all, write_all};
use std::alloc::{Allocator, Global};
use std::cell::{Cell, RefCell};
use std::fmt::Display;
use std::io;
use std::io::{BufRead, ErrorKind, Lines, Read};
use std::test::Fail;

fn error() -> io::Error {
    io::Error::from(ErrorKind::Other)
}

// What a read answers: these bytes, or an error in the place of None.
type Answers = [Option<&'static [u8]>; 4];

// An input whose reads answer these in turn, and fail after them.
#[derive(Drop)]
struct FakeInput {
    answers: Answers,
}

#[derive(Drop)]
struct FakeReader {
    answers: Answers,
    calls: usize,
}

impl Read for FakeReader {
    fn read(&mut self, buf: &mut [u8]) -> io::Result<usize> {
        let call = self.calls;
        self.calls = call.saturating_add(1);
        match self.answers.get(call) {
            Some(Some(bytes)) => {
                let count = bytes.len().min(buf.len());
                buf[..count].copy_from_slice(&bytes[..count]);
                Ok(count)
            }
            _ => Err(error()),
        }
    }
}

impl BufRead for FakeReader {
    fn fill_buf(&mut self) -> io::Result<&[u8]> {
        Ok(b"")
    }

    fn consume(&mut self, _amount: usize) {}
}

impl Input for FakeInput {
    type Reader = FakeReader;

    fn read_line<A: Allocator + Clone>(&self, _buf: &mut String<A>) -> io::Result<usize> {
        Ok(0)
    }

    fn lines<A: Allocator>(&self, alloc: A) -> Lines<FakeReader, A> {
        self.reader().lines(alloc)
    }

    fn reader(&self) -> FakeReader {
        FakeReader {
            answers: self.answers,
            calls: 0,
        }
    }
}

// An output whose writes take at most so many bytes in turn, fail in the place of None, and fail after that.
#[derive(Drop)]
struct FakeOutput {
    answers: [Option<usize>; 4],
    calls: Cell<usize>,
    held: RefCell<Vec<u8>>,
}

impl FakeOutput {
    fn new(alloc: Global, answers: [Option<usize>; 4]) -> FakeOutput {
        FakeOutput {
            answers,
            calls: Cell::new(0),
            held: RefCell::new(Vec::new(alloc)),
        }
    }

    fn holds(&self, bytes: &[u8]) -> bool {
        match self.held.try_borrow() {
            Ok(held) => held.as_slice() == bytes,
            Err(_) => false,
        }
    }
}

impl Print for FakeOutput {
    fn print<D: Display + Drop>(&self, _value: D) -> io::Result<()> {
        Ok(())
    }

    fn println<D: Display + Drop>(&self, _value: D) -> io::Result<()> {
        Ok(())
    }

    fn write_all(&self, _bytes: &[u8]) -> io::Result<()> {
        Ok(())
    }

    fn write_some(&self, bytes: &[u8]) -> io::Result<usize> {
        let call = self.calls.get();
        self.calls.set(call.saturating_add(1));
        match self.answers.get(call) {
            Some(Some(most)) => {
                let count = bytes.len().min(*most);
                let mut held = self.held.try_borrow_mut().map_err(|_| error())?;
                held.extend_from_slice(&bytes[..count])?;
                Ok(count)
            }
            _ => Err(error()),
        }
    }
}

#[test]
fn standard_input_tells_short_reads_errors_and_the_end(rt: HostRuntime) {
    let mut source = StdSource::new(FakeInput {
        answers: [Some(b"abc"), None, Some(b""), Some(b"de")],
    });
    let mut buf = [0u8; 8];
    assert_eq!(rt; source.read(&mut buf), Took::Bytes(3));
    assert_eq!(rt; &buf[..3], b"abc".as_slice());
    assert_eq!(rt; source.read(&mut buf), Took::Failed);
    assert_eq!(rt; source.read(&mut buf), Took::End);
    assert_eq!(rt; source.read(&mut buf), Took::Bytes(2));
    assert_eq!(rt; &buf[..2], b"de".as_slice());
}

#[test]
fn standard_output_tells_short_writes_and_errors(rt: HostRuntime) {
    let output = FakeOutput::new(rt.alloc(), [Some(3), None, Some(0), Some(8)]);
    let mut sink = StdSink::new(&output);
    assert_eq!(rt; sink.write(b"abcde"), Gave::Bytes(3));
    assert_eq!(rt; sink.write(b"de"), Gave::Failed);
    assert_eq!(rt; sink.write(b"de"), Gave::Failed);
    assert_eq!(rt; sink.write(b"de"), Gave::Bytes(2));
    assert!(rt; output.holds(b"abcde"));
}

#[test]
fn standard_input_is_read_to_its_end(rt: HostRuntime) -> Result<(), Fail> {
    let mut source = StdSource::new(FakeInput {
        answers: [Some(b"abc"), Some(b"de"), Some(b""), None],
    });
    let bytes = read_all(rt.alloc(), &mut source, 5)?;
    assert_eq!(rt; bytes.as_slice(), b"abcde".as_slice());
    let mut source = StdSource::new(FakeInput {
        answers: [Some(b"abc"), None, Some(b"de"), Some(b"")],
    });
    assert!(rt;
        matches!(
            read_all(rt.alloc(), &mut source, 5),
            Err(InFault::ReadFault)
        )
    );
    Ok(())
}

#[test]
fn all_goes_to_standard_output_or_stops(rt: HostRuntime) {
    let output = FakeOutput::new(rt.alloc(), [Some(3), Some(1), Some(8), None]);
    assert!(rt; write_all(&mut StdSink::new(&output), b"abcde").is_ok());
    assert!(rt; output.holds(b"abcde"));
    for answer in [None, Some(0)] {
        let output = FakeOutput::new(rt.alloc(), [Some(3), answer, Some(8), Some(8)]);
        assert!(rt; write_all(&mut StdSink::new(&output), b"abcde").is_err());
        assert!(rt; output.holds(b"abc"));
    }
}
