// The real source and sink over made-up streams.
use crate::adapters::{StdSink, StdSource};
use ss_outside::{Failed, Sink, Source};
use std::alloc::Allocator;
use std::fmt::Display;
use std::io::{self, BufRead, ErrorKind, Lines, Read};

// A reader of which each read is filled with a byte, or fails.
#[derive(Drop)]
struct Filling(Option<u8>);

impl Read for Filling {
    fn read(&mut self, into: &mut [u8]) -> io::Result<usize> {
        let Some(byte) = self.0 else {
            return Err(io::Error::from(ErrorKind::Other));
        };
        into.fill(byte);
        Ok(into.len())
    }
}

impl BufRead for Filling {
    fn fill_buf(&mut self) -> io::Result<&[u8]> {
        Err(io::Error::from(ErrorKind::Other))
    }

    fn consume(&mut self, _amount: usize) {}
}

// A standard input over such a reader.
#[derive(Drop)]
struct FillingInput(Option<u8>);

impl Input for FillingInput {
    type Reader = Filling;

    fn read_line<A: Allocator + Clone>(&self, _buf: &mut String<A>) -> io::Result<usize> {
        Err(io::Error::from(ErrorKind::Other))
    }

    fn lines<A: Allocator>(&self, alloc: A) -> Lines<Filling, A> {
        self.reader().lines(alloc)
    }

    fn reader(&self) -> Filling {
        Filling(self.0)
    }
}

// Whether a read of two bytes fills them with a byte.
fn fills(byte: u8) -> bool {
    let mut buffer = [1; 2];
    StdSource::new(&FillingInput(Some(byte))).read(&mut buffer) == Ok(2) && buffer == [byte, byte]
}

// Whether a read that fails is a failure.
fn fails() -> bool {
    let mut buffer = [1; 2];
    StdSource::new(&FillingInput(None))
        .read(&mut buffer)
        .is_err()
        && buffer == [1, 1]
}

#[test]
fn standard_input_is_read(rt: HostRuntime) {
    assert!(rt; fills(9) && fails());
}

// A standard output that takes at most so many bytes of a piece, or whose writes fail.
#[derive(Drop)]
struct Short(Option<usize>);

impl Print for Short {
    fn print<D: Display + Drop>(&self, _value: D) -> io::Result<()> {
        Ok(())
    }

    fn println<D: Display + Drop>(&self, _value: D) -> io::Result<()> {
        Ok(())
    }

    fn write_all(&self, _bytes: &[u8]) -> io::Result<()> {
        Ok(())
    }

    fn write_some(&self, bytes: &[u8]) -> io::Result<usize> {
        match self.0 {
            Some(most) => Ok(most.min(bytes.len())),
            None => Err(io::Error::from(ErrorKind::Other)),
        }
    }
}

// Whether a piece of three bytes is answered so.
fn answers(most: Option<usize>, answer: Result<usize, Failed>) -> bool {
    let stream = Short(most);
    StdSink::new(&stream).put(b"abc") == answer
}

#[test]
fn standard_output_is_written(rt: HostRuntime) {
    assert!(rt; answers(Some(9), Ok(3)) && answers(Some(1), Ok(1)));
    assert!(rt; answers(Some(0), Err(Failed)) && answers(None, Err(Failed)));
}
