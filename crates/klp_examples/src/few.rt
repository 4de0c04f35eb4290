//! Streams whose reads and writes are cut.
use std::io;
use std::io::{Read, Write};

/// A stream whose reads give at most `most` bytes, and whose writes accept at most `most`.
#[derive(Drop)]
pub(crate) struct Few<S> {
    stream: S,
    most: usize,
}

impl<S> Few<S> {
    pub(crate) fn new(stream: S, most: usize) -> Self {
        Few { stream, most }
    }
}

impl<S: Read> Read for Few<S> {
    fn read(&mut self, buf: &mut [u8]) -> io::Result<usize> {
        let count = self.most.min(buf.len());
        self.stream.read(&mut buf[..count])
    }
}

impl<S: Write> Write for Few<S> {
    fn write(&mut self, bytes: &[u8]) -> io::Result<usize> {
        let count = self.most.min(bytes.len());
        self.stream.write(&bytes[..count])
    }

    fn flush(&mut self) -> io::Result<()> {
        self.stream.flush()
    }
}
