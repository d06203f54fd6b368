//! Streams over memory, whole or a byte at a time, that fail at chosen calls.
ghost use Rattle.std.specs.Prelude.{◌≤◌, ◌<◌, ◌≡◌, Some, length};

use super::{Failed, MemSink, MemSource, ReadStop, Sink, Source, read_all, write_all};
use std::alloc::Global;
use std::test::Fail;

/// Gives one byte a call.
#[derive(Drop)]
struct Drip {
    source: MemSource,
}

impl Source for Drip {
    ghost left = { λ s. Some s.source.left };

    ghost faults = { λ s. s.source.calls.faults };

    fn read(&mut self, buf: &mut [u8]) -> Result<usize, Failed> {
        if buf.is_empty() {
            return self.source.read(buf);
        }
        let mut byte = [0];
        let n = self.source.read(&mut byte)?;
        if n == 1 {
            buf[0] = byte[0];
        }
        Ok(n)
    }
}

/// Takes one byte a call.
#[derive(Drop)]
struct Trickle {
    sink: MemSink,
}

impl Sink for Trickle {
    ghost taken = { λ s. Some s.sink.taken };

    ghost faults = { λ s. s.sink.calls.faults };

    fn write(&mut self, piece: &[u8]) -> Result<usize, Failed> {
        let (first, _) = piece.split_at(piece.len().min(1));
        self.sink.write(first)
    }
}

fn read_from(
    alloc: Global,
    input: &[u8],
    fails: &[u64],
    drips: bool,
    limit: usize,
) -> Result<Vec<u8>, ReadStop> {
    let bytes = Vec::from_slice(alloc, input)?;
    let fails = Vec::from_slice(alloc, fails)?;
    let mut source = MemSource::new(bytes, fails);
    if drips {
        read_all(alloc, &mut Drip { source }, limit)
    } else {
        read_all(alloc, &mut source, limit)
    }
}

fn shown(outcome: &Result<Vec<u8>, ReadStop>) -> &[u8] {
    match outcome {
        Ok(text) => text.as_slice(),
        Err(ReadStop::Failed) => b"fault",
        Err(ReadStop::TooLong) => b"long",
        Err(ReadStop::Memory) => b"memory",
    }
}

#[test]
fn reads(rt: HostRuntime) {
    let cases: [(&[u8], &[u64], bool, usize, &[u8]); 9] = [
        (b"", &[], false, 0, b""),
        (b"abc", &[], false, 3, b"abc"),
        (b"abc", &[], true, 3, b"abc"),
        (b"abc", &[], true, 2, b"long"),
        (b"abc", &[1], false, 3, b"fault"),
        (b"abc", &[2], false, 3, b"fault"),
        (b"abc", &[2], true, 3, b"fault"),
        (b"abc", &[3, 9], false, 3, b"abc"),
        (b"abc", &[5], true, 3, b"abc"),
    ];
    for (input, fails, drips, limit, want) in cases {
        let outcome = read_from(rt.alloc(), input, fails, drips, limit);
        assert_eq!(rt; shown(&outcome), want);
    }
}

#[test]
fn reads_more_than_a_piece(rt: HostRuntime) -> Result<(), Fail> {
    let length = 200_000;
    let bytes = vec![in rt.alloc(); 7; length]?;
    let mut source = MemSource::new(bytes, Vec::new(rt.alloc()));
    let text = read_all(rt.alloc(), &mut source, length)?;
    assert_eq!(rt; text.len(), length);
    Ok(())
}

#[test]
fn writes(rt: HostRuntime) -> Result<(), Fail> {
    let cases: [(&[u64], bool, &[u8]); 5] = [
        (&[], true, b"SET"),
        (&[1], false, b""),
        (&[2], false, b"S"),
        (&[3, 1_000], false, b"SE"),
        (&[4], true, b"SET"),
    ];
    for (fails, whole, want) in cases {
        let fails = Vec::from_slice(rt.alloc(), fails)?;
        let sink = MemSink::new(rt.alloc(), fails);
        let mut out = Trickle { sink };
        assert_eq!(rt; write_all(&mut out, b"SET").is_ok(), whole);
        assert_eq!(rt; out.sink.bytes(), want);
    }
    Ok(())
}

#[test]
fn writes_at_once(rt: HostRuntime) -> Result<(), Fail> {
    let cases: [(&[u64], bool, &[u8]); 3] = [
        (&[], true, b"SET"),
        (&[1], false, b""),
        (&[2], true, b"SET"),
    ];
    for (fails, whole, want) in cases {
        let fails = Vec::from_slice(rt.alloc(), fails)?;
        let mut sink = MemSink::new(rt.alloc(), fails);
        assert_eq!(rt; write_all(&mut sink, b"SET").is_ok(), whole);
        assert_eq!(rt; sink.bytes(), want);
    }
    Ok(())
}
