//! What passes the edge: the standard streams hand on counts and faults, which no clause says.

use std::alloc::Allocator;
use std::fmt::Display;
use std::io;
use std::io::{BufRead, ErrorKind, Input, Lines, Print, Read};
use store_io::{Failed, Sink, Source, StdinSource, StdoutSink};

const FAILED: Result<usize, Failed> = Err(Failed);

/// A runtime whose input has `a`, then two faults and then the end. Its output takes one byte of
/// four, refuses three, takes nothing of two, and takes one.
struct Edge;

#[derive(Drop)]
struct EdgeReader {
    calls: u8,
}

impl Read for EdgeReader {
    fn read(&mut self, buf: &mut [u8]) -> io::Result<usize> {
        self.calls = self.calls.saturating_add(1);
        match (self.calls, buf) {
            (1, [first, ..]) => {
                *first = b'a';
                Ok(1)
            }
            (2 | 3, _) => Err(io::Error::from(ErrorKind::Other)),
            _ => Ok(0),
        }
    }
}

impl BufRead for EdgeReader {
    fn fill_buf(&mut self) -> io::Result<&[u8]> {
        Ok(&[])
    }

    fn consume(&mut self, _amount: usize) {}
}

impl Input for Edge {
    type Reader = EdgeReader;

    fn read_line<A: Allocator + Clone>(&self, _buf: &mut String<A>) -> io::Result<usize> {
        Ok(0)
    }

    fn lines<A: Allocator>(&self, alloc: A) -> Lines<EdgeReader, A> {
        self.reader().lines(alloc)
    }

    fn reader(&self) -> EdgeReader {
        EdgeReader { calls: 0 }
    }
}

impl Print for Edge {
    fn print<D: Display + Drop>(&self, _value: D) -> io::Result<()> {
        Ok(())
    }

    fn println<D: Display + Drop>(&self, _value: D) -> io::Result<()> {
        Ok(())
    }

    fn write_all(&self, _bytes: &[u8]) -> io::Result<()> {
        Ok(())
    }

    fn write_some(&self, bytes: &[u8]) -> io::Result<usize> {
        match bytes.len() {
            1 | 4 => Ok(1),
            2 => Ok(0),
            _ => Err(io::Error::from(ErrorKind::BrokenPipe)),
        }
    }
}

#[test]
fn the_standard_streams_pass_on_counts_and_faults(rt: HostRuntime) {
    let mut source = StdinSource::new(&Edge);
    let mut buf = [0; 2];
    assert_eq!(rt; source.read(&mut buf), Ok(1));
    assert_eq!(rt; buf, *b"a\0");
    assert_eq!(rt; source.read(&mut buf), FAILED);
    assert_eq!(rt; source.read(&mut buf), FAILED);
    assert_eq!(rt; source.read(&mut buf), Ok(0));

    let mut sink = StdoutSink::new(&Edge);
    assert_eq!(rt; sink.write(b"abcd"), Ok(1));
    assert_eq!(rt; sink.write(b"abc"), FAILED);
    assert_eq!(rt; sink.write(b"ab"), FAILED);
    assert_eq!(rt; sink.write(b"a"), Ok(1));
}
