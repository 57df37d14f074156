//! Each implementation of files and sinks, used through the traits' contracts, and what the adapters do at faults.

use outside::{
    DiskFiles, Failed, FailingPut, Files, MemoryFiles, MemorySink, ReadError, Sink, StreamSink,
    SureFiles, SureSink,
};
use std::alloc::{AllocError, Global};
use std::io;
use std::io::Write;
use std::test::Fail;

/// How many `x` a read gives.
fn read_count<F: Files>(
    alloc: Global,
    files: &mut F,
    name: &str,
    most: usize,
) -> Result<usize, ReadError> {
    let read = files.read(alloc, name, most)?;
    Ok(read.iter().filter(|byte| **byte == b'x').count())
}

fn put_piece<O: Sink>(sink: &mut O) -> Result<(), Failed> {
    sink.put(b"piece\n")
}

/// A stream that fails in one way.
#[derive(Clone, Copy, Debug)]
enum Faulty {
    TakesNothing,
    FailsAtWrite,
    FailsAtFlush,
    /// It loses all that it takes, and reports success.
    LosesAll,
}

impl Write for Faulty {
    fn write(&mut self, buf: &[u8]) -> io::Result<usize> {
        match self {
            Faulty::TakesNothing => Ok(0),
            Faulty::FailsAtWrite => Err(io::Error::from(io::ErrorKind::BrokenPipe)),
            Faulty::FailsAtFlush | Faulty::LosesAll => Ok(buf.len().min(2)),
        }
    }

    fn flush(&mut self) -> io::Result<()> {
        match self {
            Faulty::FailsAtFlush => Err(io::Error::from(io::ErrorKind::BrokenPipe)),
            _ => Ok(()),
        }
    }
}

/// The file holds five `x`; the first read gives at most four, and the second one is set to fail.
fn count_in_memory(alloc: Global, files: &mut MemoryFiles) -> Result<usize, ReadError> {
    files.add(alloc, "a", b"xxxxx")?;
    files.fail_at(1)?;
    read_count(alloc, files, "a", 4)
}

fn memory_count(alloc: Global) -> Result<usize, ReadError> {
    let mut files = MemoryFiles::new(alloc);
    count_in_memory(alloc, &mut files)
}

fn count_in_sure(alloc: Global, files: &mut SureFiles) -> Result<usize, ReadError> {
    files.add(alloc, "a", b"xxxxx")?;
    read_count(alloc, files, "a", 4)
}

fn sure_count(alloc: Global) -> Result<usize, ReadError> {
    let mut files = SureFiles::new(alloc);
    count_in_sure(alloc, &mut files)
}

/// The name of a file that the test writes.
const PATH: &str = "outside_test.tmp";

/// Names, the most bytes that are read, and how many come, of a file of 10,000.
const READS: [(&str, usize, Result<usize, ReadError>); 6] = [
    (PATH, 0, Ok(0)),
    (PATH, 4096, Ok(4096)),
    (PATH, 9_999, Ok(9_999)),
    (PATH, 20_000, Ok(10_000)),
    (".", 5, Err(ReadError::Failed)),
    ("bad\0name", 5, Err(ReadError::Failed)),
];

/// Writes a file of 10,000 bytes.
fn write_file(rt: &HostRuntime) -> Result<(), Fail> {
    let text = vec![in rt.alloc(); b'x'; 10_000]?;
    std::fs::write(rt, PATH, text.as_slice())?;
    Ok(())
}

#[test]
fn files_are_read_up_to_the_most(rt: HostRuntime) -> Result<(), Fail> {
    assert_eq!(rt; memory_count(rt.alloc()), Ok(4));
    assert_eq!(rt; sure_count(rt.alloc()), Ok(4));
    write_file(&rt)?;
    let mut files = DiskFiles::new(rt);
    for (name, most, want) in &READS {
        assert_eq!(rt;
            read_count(rt.alloc(), &mut files, name, *most),
            *want,
            "{name}"
        );
    }
    assert_eq!(rt; files.faults(), 2);
    std::fs::remove_file(&rt, PATH)?;
    Ok(())
}

/// A sink in memory whose second put is set to fail.
fn held_sink(alloc: Global) -> Result<MemorySink, AllocError> {
    let mut held = MemorySink::with_room(alloc, 8)?;
    held.fail_at(FailingPut { number: 1, most: 1 })?;
    Ok(held)
}

#[test]
fn sinks_take_whole_pieces_or_fail(rt: HostRuntime) -> Result<(), Fail> {
    let mut held = held_sink(rt.alloc())?;
    assert_eq!(rt; put_piece(&mut held), Ok(()));
    assert_eq!(rt; put_piece(&mut SureSink), Ok(()));
    assert_eq!(rt; put_piece(&mut StreamSink::new(rt.stdout())), Ok(()));
    for stream in [
        Faulty::TakesNothing,
        Faulty::FailsAtWrite,
        Faulty::FailsAtFlush,
    ] {
        let mut sink = StreamSink::new(stream);
        assert_eq!(rt; put_piece(&mut sink), Err(Failed), "{stream:?}");
        assert_eq!(rt; sink.faults(), 1, "{stream:?}");
        assert_eq!(rt; sink.puts(), 1, "{stream:?}");
    }
    Ok(())
}

#[test]
fn what_is_lost_in_silence_is_no_fault(rt: HostRuntime) -> Result<(), Fail> {
    let mut sink = StreamSink::new(Faulty::LosesAll);
    assert_eq!(rt; put_piece(&mut sink), Ok(()));
    assert_eq!(rt; sink.faults(), 0);
    assert_eq!(rt; sink.puts(), 1);
    Ok(())
}
