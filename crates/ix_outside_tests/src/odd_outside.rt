//! Readers and writers of tests, that fail where the system's seldom do.
use std::io;
use std::io::{Error, ErrorKind, Read, Write};

/// Gives one byte a call, the call's number as a digit. Each first call of three is interrupted, and
/// the fifth fails.
#[derive(Drop)]
pub struct OddReader {
    calls: u8,
}

impl OddReader {
    /// The reader before its first call.
    pub fn new() -> Self {
        OddReader { calls: 0 }
    }
}

impl Read for OddReader {
    fn read(&mut self, buffer: &mut [u8]) -> io::Result<usize> {
        self.calls = self.calls.saturating_add(1);
        if self.calls % 3 == 1 {
            return Err(Error::from(ErrorKind::Interrupted));
        }
        if self.calls == 5 {
            return Err(Error::from(ErrorKind::Other));
        }
        if buffer.is_empty() {
            return Ok(0);
        }
        buffer.fill(0);
        buffer[0] = b'0'.saturating_add(self.calls);
        Ok(1)
    }
}

/// Takes one byte a call, into the space that it is given. Each first write of two is interrupted,
/// and so is each first flush. The sixth write fails, and the seventh flush.
#[derive(Drop)]
pub struct OddWriter<'a> {
    taken: &'a mut Vec<u8>,
    writes: u8,
    flushes: u8,
}

impl<'a> OddWriter<'a> {
    /// The writer before its first call.
    pub fn new(taken: &'a mut Vec<u8>) -> Self {
        OddWriter {
            taken,
            writes: 0,
            flushes: 0,
        }
    }
}

impl Write for OddWriter<'_> {
    fn write(&mut self, bytes: &[u8]) -> io::Result<usize> {
        self.writes = self.writes.saturating_add(1);
        if self.writes % 2 == 1 {
            return Err(Error::from(ErrorKind::Interrupted));
        }
        if self.writes == 6 {
            return Err(Error::from(ErrorKind::Other));
        }
        match bytes.first() {
            Some(byte) => {
                self.taken.push(*byte)?;
                Ok(1)
            }
            None => Ok(0),
        }
    }

    fn flush(&mut self) -> io::Result<()> {
        self.flushes = self.flushes.saturating_add(1);
        if self.flushes % 2 == 1 && self.flushes < 7 {
            return Err(Error::from(ErrorKind::Interrupted));
        }
        if self.flushes == 7 {
            return Err(Error::from(ErrorKind::Other));
        }
        Ok(())
    }
}
