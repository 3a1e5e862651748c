//! Every port once through its trait, with calls that fail as they were told to.
use byte_ports::{
    CountSink, Failed, MemorySink, MemorySource, PlainSource, Sink, Source, StdSink, StdSource,
    write_all,
};
use std::alloc::{AllocError, Global};
use std::io;
use std::io::{Error, ErrorKind, Read, Write};
use std::test::Fail;

/// What six reads into three bytes answer, and the bytes that they gave. 9 stands for `Failed`.
fn six_reads<S: Source>(
    alloc: Global,
    source: &mut S,
) -> Result<(Vec<usize>, Vec<u8>), AllocError> {
    let mut answers = Vec::new(alloc);
    let mut given = Vec::new(alloc);
    for _ in 0..6 {
        let mut room = [0u8; 3];
        match source.read(&mut room) {
            Ok(count) => {
                answers.push(count)?;
                given.extend_from_slice(&room[..count])?;
            }
            Err(Failed) => answers.push(9)?,
        }
    }
    Ok((answers, given))
}

/// Whether a piece, an empty piece and a flush succeed.
fn three_calls<K: Sink>(sink: &mut K) -> (bool, bool, bool) {
    let piece = write_all(sink, b"hello").is_ok();
    let empty = write_all(sink, b"").is_ok();
    (piece, empty, sink.flush().is_ok())
}

/// A device of which every call fails, but a write, which takes nothing.
#[derive(Drop)]
struct Broken;

impl Read for Broken {
    fn read(&mut self, _buf: &mut [u8]) -> io::Result<usize> {
        Err(Error::from(ErrorKind::Other))
    }
}

impl Write for Broken {
    fn write(&mut self, _buf: &[u8]) -> io::Result<usize> {
        Ok(0)
    }

    fn flush(&mut self) -> io::Result<()> {
        Err(Error::from(ErrorKind::Other))
    }
}

#[test]
fn sources_give_all_and_fail_as_told(rt: HostRuntime) -> Result<(), Fail> {
    let alloc = rt.alloc();
    let bytes = b"abcdefg";
    let scripts = [
        (2, [8, 8], [2, 2, 2, 1, 0, 0]),
        (9, [0, 2], [9, 3, 9, 3, 1, 0]),
        (3, [u64::MAX, 5], [3, 3, 1, 0, 0, 9]),
    ];
    for (step, failing, answers) in scripts {
        let failing = failing.to_vec(alloc)?;
        let mut source = MemorySource::new(bytes.to_vec(alloc)?, step, failing);
        let (seen, given) = six_reads(alloc, &mut source)?;
        assert_eq!(rt; seen.as_slice(), answers.as_slice(), "at step {step}");
        assert_eq!(rt; given.as_slice(), bytes.as_slice(), "at step {step}");
    }
    let mut plain = PlainSource::new(bytes.to_vec(alloc)?);
    let (seen, given) = six_reads(alloc, &mut plain)?;
    assert_eq!(rt; seen.as_slice(), [3, 3, 1, 0, 0, 0].as_slice());
    assert_eq!(rt; given.as_slice(), bytes.as_slice());
    let mut standard = StdSource::new(bytes.as_slice());
    let (seen, given) = six_reads(alloc, &mut standard)?;
    assert_eq!(rt; seen.as_slice(), [3, 3, 1, 0, 0, 0].as_slice());
    assert_eq!(rt; given.as_slice(), bytes.as_slice());
    let (seen, _) = six_reads(alloc, &mut StdSource::new(Broken))?;
    assert_eq!(rt; seen.as_slice(), [9; 6].as_slice());
    Ok(())
}

#[test]
fn sinks_take_all_and_fail_as_told(rt: HostRuntime) -> Result<(), Fail> {
    let alloc = rt.alloc();
    let scripts = [
        (2, [8, 8], true, b"hello".as_slice()),
        (2, [1, 8], false, b"he".as_slice()),
        (9, [0, 0], false, b"".as_slice()),
        (9, [u64::MAX, 3], true, b"hello".as_slice()),
    ];
    for (step, failing, whole, taken) in scripts {
        let mut sink = MemorySink::new(alloc, step, failing.to_vec(alloc)?);
        assert!(rt; !sink.flushed());
        assert_eq!(rt;
            three_calls(&mut sink),
            (whole, true, true),
            "at step {step}"
        );
        assert_eq!(rt; sink.taken(), taken, "at step {step}");
        assert!(rt; sink.flushed());
    }
    let mut counter = CountSink::new();
    assert_eq!(rt; three_calls(&mut counter), (true, true, true));
    assert_eq!(rt; counter.total(), 5);
    let mut written = Vec::new(alloc);
    let mut standard = StdSink::new(&mut written);
    assert_eq!(rt; three_calls(&mut standard), (true, true, true));
    assert_eq!(rt; written.as_slice(), b"hello".as_slice());
    let mut broken = StdSink::new(Broken);
    assert_eq!(rt; three_calls(&mut broken), (false, true, false));
    Ok(())
}
