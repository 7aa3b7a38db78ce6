//! The standard library's readers and writers as the outside.
ghost use Rattle.std.specs.Prelude.{◌≡◌, ◌≤◌, ◌<◌, None, IfOk, length};
ghost use Rattle.std.specs.Io.{ReadsAtMost, WritesAtMost};
ghost use Rattle.std.specs.Io.KnownBytes.{ReadConsumes};

use crate::fault_count::FaultCount;
use crate::sink::Sink;
use crate::source::{Failed, Source};
use std::io;
use std::io::{Error, ErrorKind, Read, Write};

/// A reader as a source. It tells the bytes that are left where the reader tells them. A read that
/// was interrupted is made again, and is a fault once it was tried 2^64 - 1 times. Each other error of
/// the reader is a fault.
#[derive(Drop)]
pub struct ReadSource<R> {
    reader: R,
    faults: FaultCount,
}

impl<R: Read> ReadSource<R> {
    /// The source of this reader, without a fault yet.
    pub fn new(reader: R) -> Self
        ensures reader { result.reader ≡ reader }
        ensures faults { result.faults.count ≡ 0 }
    {
        ReadSource {
            reader,
            faults: FaultCount::new(),
        }
    }
}

impl<R: Read> Source for ReadSource<R> {
    ghost left = { λ source. R.remaining source.reader };

    ghost fault_count = { λ source. source.faults.count };

    fn read(&mut self, buffer: &mut [u8]) -> Result<usize, Failed> {
        match read_again(&mut self.reader, buffer) {
            Ok(count) => Ok(count),
            Err(_) => {
                self.faults.raise();
                Err(Failed)
            }
        }
    }

    fn faults(&self) -> u64 {
        self.faults.get()
    }
}

/// A writer as a sink, which flushes the writer after each write. It tells nothing of its bytes, since
/// a flush can fail once they are taken. A write or a flush that was interrupted is made again, and is
/// a fault once it was tried 2^64 - 1 times. Each other error of the writer is a fault, and so is a
/// write that takes no byte of a piece that has some.
#[derive(Drop)]
pub struct WriteSink<W> {
    writer: W,
    faults: FaultCount,
}

impl<W: Write> WriteSink<W> {
    /// The sink of this writer, without a fault yet.
    pub fn new(writer: W) -> Self
        ensures writer { result.writer ≡ writer }
        ensures faults { result.faults.count ≡ 0 }
    {
        WriteSink {
            writer,
            faults: FaultCount::new(),
        }
    }
}

impl<W: Write> Sink for WriteSink<W> {
    ghost written = { λ _. None };

    ghost fault_count = { λ sink. sink.faults.count };

    fn write(&mut self, bytes: &[u8]) -> Result<usize, Failed> {
        match write_and_flush(&mut self.writer, bytes) {
            Ok(taken) => Ok(taken),
            Err(_) => {
                self.faults.raise();
                Err(Failed)
            }
        }
    }

    fn faults(&self) -> u64 {
        self.faults.get()
    }
}

/// How many bytes the writer took and flushed. It is an error to take none of a piece that has some.
fn write_and_flush<W: Write>(writer: &mut W, bytes: &[u8]) -> io::Result<usize>
    ensures bound { IfOk result (λ count. count ≤ length bytes.now) }
    ensures some { IfOk result (λ count. 0 < length bytes.now → 0 < count) }
{
    let count = write_again(writer, bytes)?;
    if count == 0 && bytes.len() > 0 {
        return Err(Error::from(ErrorKind::WriteZero));
    }
    flush_again(writer)?;
    Ok(count)
}

/// Reads, again where the read was interrupted.
fn read_again<R: Read>(reader: &mut R, buffer: &mut [u8]) -> io::Result<usize>
    ensures bound { ReadsAtMost result buffer.new }
    ensures bytes { ReadConsumes (R.remaining reader.old)
        (R.remaining reader.new) result buffer.new }
{
    for _ in 0..u64::MAX {
        match reader.read(buffer) {
            Err(error) if error.kind() == ErrorKind::Interrupted => {}
            answer => return answer,
        }
    }
    Err(Error::from(ErrorKind::TimedOut))
}

/// Writes, again where the write was interrupted.
fn write_again<W: Write>(writer: &mut W, bytes: &[u8]) -> io::Result<usize>
    ensures bound { WritesAtMost result bytes.now }
{
    for _ in 0..u64::MAX {
        match writer.write(bytes) {
            Err(error) if error.kind() == ErrorKind::Interrupted => {}
            answer => return answer,
        }
    }
    Err(Error::from(ErrorKind::TimedOut))
}

/// Flushes, again where the flush was interrupted.
fn flush_again<W: Write>(writer: &mut W) -> io::Result<()> {
    for _ in 0..u64::MAX {
        match writer.flush() {
            Err(error) if error.kind() == ErrorKind::Interrupted => {}
            answer => return answer,
        }
    }
    Err(Error::from(ErrorKind::TimedOut))
}
