//! Sources and sinks: a fault at each call, the length of an input, and readers and writers of std that fail.
use crate::made::assert_case;
use std::io::{self, ErrorKind, Read, Write};
use std::process::Abort;
use tp_io::{
    Failed, MemorySink, MemorySource, ReadError, ReadSource, Source, SteadySink, SteadySource,
    WriteSink, read_to_end, write_all,
};
use tp_types::List;

const TEXT: &[u8] = b"0123456789";

/// The most bytes of an input.
const INPUT_MAX: usize = 16_777_216;

/// Whether a source is read to its end, and gave these bytes.
fn gives(rt: &impl AllocGlobal, source: &mut impl Source, wanted: &[u8]) -> bool {
    match read_to_end(rt.alloc(), source, INPUT_MAX) {
        Ok(bytes) => bytes.as_slice() == wanted,
        Err(_error) => false,
    }
}

/// How many bytes a source gives to its end, of which it may have at most `most`, or how it fails.
fn read(rt: &impl AllocGlobal, source: &mut impl Source, most: usize) -> Result<usize, ReadError> {
    match read_to_end(rt.alloc(), source, most) {
        Ok(bytes) => Ok(bytes.len()),
        Err(error) => Err(error),
    }
}

/// Whether a source whose calls give three bytes, and of which one call fails, goes on with these.
fn goes_on(rt: &(impl Abort + AllocGlobal), fails: u64, back: &[u8]) -> bool {
    let text = Vec::from_slice(rt.alloc(), TEXT).expect(rt, "memory for a text");
    let calls = List::of_one(rt.alloc(), fails).expect(rt, "memory for calls");
    let mut source = MemorySource::new(List::from_vec(text), calls, 3);
    read(rt, &mut source, INPUT_MAX) == Err(ReadError::Fault) && gives(rt, &mut source, back)
}

/// Whether a sink whose calls take three bytes, and of which one call fails, keeps these, and all where it is the fifth.
fn keeps(rt: &(impl Abort + AllocGlobal), fails: u64, front: &[u8]) -> bool {
    let calls = List::of_one(rt.alloc(), fails).expect(rt, "memory for calls");
    let mut sink = MemorySink::new(rt.alloc(), calls, 3);
    let is_whole = write_all(&mut sink, TEXT).is_ok();
    is_whole == (fails == 4) && sink.bytes() == front
}

// The fifth call of a source finds the end; of a sink it is not needed, and may fail. A call that fails takes nothing.
#[test]
fn a_call_that_fails_loses_nothing(rt: HostRuntime) {
    for (fails, count) in [(0, 0), (1, 3), (2, 6), (3, 9), (4, 10)] {
        let (front, back) = TEXT.split_at(count);
        let holds = goes_on(&rt, fails, back) && keeps(&rt, fails, front);
        assert_case(&rt, count, holds);
    }
}

/// What a source of so many bytes gives, of which it may have at most `most`, and then what is left.
fn read_twice(
    rt: &(impl Abort + AllocGlobal),
    count: usize,
    most: usize,
) -> (Result<usize, ReadError>, Result<usize, ReadError>) {
    let bytes = vec![in rt.alloc(); b'x'; count].expect(rt, "memory for bytes");
    let mut source = SteadySource::new(List::from_vec(bytes));
    let first = read(rt, &mut source, most);
    (first, read(rt, &mut source, most))
}

// An input of a scenario has at most 16 MiB. One that has more than it may is read up to its first byte that is too much.
#[test]
fn an_input_may_be_too_long(rt: HostRuntime) {
    assert!(rt; read_twice(&rt, INPUT_MAX, INPUT_MAX) == (Ok(16_777_216), Ok(0)));
    assert!(rt; read_twice(&rt, INPUT_MAX + 3, INPUT_MAX) == (Err(ReadError::TooLong), Ok(2)));
    assert!(rt; read_twice(&rt, 5_003, 5_000) == (Err(ReadError::TooLong), Ok(2)));
    assert!(rt; read_twice(&rt, 1, 0) == (Err(ReadError::TooLong), Ok(0)));
}

/// A reader that fails at its first call and has no bytes.
#[derive(Drop)]
struct Breaks {
    is_broken: bool,
}

impl Read for Breaks {
    fn read(&mut self, _buf: &mut [u8]) -> io::Result<usize> {
        if self.is_broken {
            return Ok(0);
        }
        self.is_broken = true;
        Err(io::Error::from(ErrorKind::TimedOut))
    }
}

#[test]
fn a_reader_that_fails_in_mid_stream(rt: HostRuntime) {
    let (front, back) = TEXT.split_at(4);
    let broken = front.chain(Breaks { is_broken: false }).chain(back);
    let mut source = ReadSource::new(broken);
    assert!(rt; read(&rt, &mut source, INPUT_MAX) == Err(ReadError::Fault));
    assert!(rt; gives(&rt, &mut source, back));
}

/// A writer that takes at most three bytes a call, and at one call answers this instead.
#[derive(Drop)]
struct Stumbles<'a> {
    kept: &'a mut Vec<u8>,
    calls_left: u32,
    takes_nothing: bool,
}

impl Write for Stumbles<'_> {
    fn write(&mut self, piece: &[u8]) -> io::Result<usize> {
        if self.calls_left > 0 {
            self.calls_left -= 1;
            let (front, _) = piece.split_at(piece.len().min(3));
            return self.kept.write(front);
        }
        self.calls_left = u32::MAX;
        if self.takes_nothing {
            return Ok(0);
        }
        Err(io::Error::from(ErrorKind::StorageFull))
    }

    fn flush(&mut self) -> io::Result<()> {
        Ok(())
    }
}

/// Whether a sink whose writer stumbles fails there and goes on behind it.
fn goes_on_behind_a_stumble(rt: &impl AllocGlobal, takes_nothing: bool) -> bool {
    let mut kept = Vec::new(rt.alloc());
    let mut sink = WriteSink::new(Stumbles {
        kept: &mut kept,
        calls_left: 2,
        takes_nothing,
    });
    let failed = write_all(&mut sink, TEXT) == Err(Failed);
    let goes_on = write_all(&mut sink, b"ab").is_ok();
    drop(sink);
    failed && goes_on && kept.as_slice() == b"012345ab".as_slice()
}

#[test]
fn a_writer_that_fails_in_mid_stream(rt: HostRuntime) {
    assert!(rt; goes_on_behind_a_stumble(&rt, false) && goes_on_behind_a_stumble(&rt, true));
}

#[test]
fn a_steady_sink_takes_all(rt: HostRuntime) {
    let mut sink = SteadySink::new();
    let is_whole = write_all(&mut sink, TEXT).is_ok();
    assert!(rt; is_whole);
}
