//! What no clause says: that the adapters of streams reach them, and what they make of their errors.
use crate::odd_outside::{OddReader, OddWriter};
use ix_outside::{ReadSource, Sink, Source, WriteSink};
use std::alloc::Global;
use std::fmt::Write;
use std::test::Fail;

/// So many reads into three bytes: of each what it returns, the bytes then, and how many calls have
/// failed.
fn told_reads<S: Source>(alloc: Global, source: &mut S, calls: u32) -> Result<String, Fail> {
    let mut told = String::new(alloc);
    for _ in 0..calls {
        let mut buffer = [0u8; 3];
        let count = source.read(&mut buffer);
        writeln!(told, "{count:?} {buffer:?} {}", source.faults())?;
    }
    Ok(told)
}

/// Writes of pieces that stand between strokes: of each what it returns, and how many calls have failed.
fn told_writes<S: Sink>(alloc: Global, sink: &mut S, pieces: &str) -> Result<String, Fail> {
    let mut told = String::new(alloc);
    for piece in pieces.split('|') {
        let taken = sink.write(piece.as_bytes());
        writeln!(told, "{piece}| {taken:?} {}", sink.faults())?;
    }
    Ok(told)
}

/// The bytes `abcd`, to their end.
const READ: &str = "\
Ok(3) [97, 98, 99] 0
Ok(1) [100, 0, 0] 0
Ok(0) [0, 0, 0] 0
";

/// An interrupted read is made again, and each other error is a fault.
const READ_ODDLY: &str = "\
Ok(1) [50, 0, 0] 0
Ok(1) [51, 0, 0] 0
Err(Failed) [0, 0, 0] 1
Ok(1) [54, 0, 0] 1
Ok(1) [56, 0, 0] 1
";

#[test]
fn reads_a_reader(rt: HostRuntime) -> Result<(), Fail> {
    let mut source = ReadSource::new(b"abcd".as_slice());
    assert!(rt; told_reads(rt.alloc(), &mut source, 3)?.as_str() == READ);
    Ok(())
}

#[test]
fn reads_again_where_interrupted(rt: HostRuntime) -> Result<(), Fail> {
    let mut source = ReadSource::new(OddReader::new());
    assert!(rt; told_reads(rt.alloc(), &mut source, 5)?.as_str() == READ_ODDLY);
    Ok(())
}

/// A writer of three bytes takes them until it is full.
const WRITTEN: &str = "\
| Ok(0) 0
ab| Ok(2) 0
cd| Ok(1) 0
| Ok(0) 0
d| Err(Failed) 1
";

/// An interrupted write or flush is made again, and each other error is a fault.
const WRITTEN_ODDLY: &str = "\
ab| Ok(1) 0
bc| Ok(1) 0
cd| Err(Failed) 1
ce| Ok(1) 1
fg| Err(Failed) 2
hi| Ok(1) 2
";

#[test]
fn writes_to_a_writer_until_it_is_full(rt: HostRuntime) -> Result<(), Fail> {
    let mut space = [0u8; 3];
    let mut sink = WriteSink::new(space.as_mut_slice());
    assert!(rt; told_writes(rt.alloc(), &mut sink, "|ab|cd||d")?.as_str() == WRITTEN);
    assert!(rt; &space == b"abc");
    Ok(())
}

#[test]
fn writes_again_where_interrupted(rt: HostRuntime) -> Result<(), Fail> {
    let mut taken = Vec::new(rt.alloc());
    let mut sink = WriteSink::new(OddWriter::new(&mut taken));
    assert!(rt; told_writes(rt.alloc(), &mut sink, "ab|bc|cd|ce|fg|hi")?.as_str() == WRITTEN_ODDLY);
    drop(sink);
    assert!(rt; taken.as_slice() == b"abcfh".as_slice());
    Ok(())
}
