//! The edges to standard input and standard output. They tell nothing of content, and count each fault.
ghost use Rattle.std.specs.Prelude.{◌≡◌, ◌<◌, None, vec_len};

use s2_outside::{Failed, Memory, Sink, Source};
use std::alloc::Global;
use std::io::{Read, Write};

/// How many bytes one read asks for.
const PIECE: usize = 65_536;

/// A source over a reader.
#[derive(Drop)]
pub struct ReaderSource<R> {
    reader: R,
    piece: Vec<u8>,
    faults: u64,
}

impl<R: Read> ReaderSource<R> {
    /// A source over this reader, without a fault so far.
    pub fn new(alloc: Global, reader: R) -> Result<ReaderSource<R>, Memory>
    where
        R: Drop,
    {
        let piece = vec![in alloc; 0u8; PIECE]?;
        Ok(ReaderSource {
            reader,
            piece,
            faults: 0,
        })
    }
}

impl<R: Read> Source for ReaderSource<R> {
    ghost left = { λ _. None };

    ghost faults = { λ s. s.faults };

    fn read(&mut self, buf: &mut [u8]) -> Result<usize, Failed> {
        let most = buf.len().min(self.piece.len());
        let piece = &mut self.piece.as_mut_slice()[..most];
        match self.reader.read(piece) {
            Ok(n) => {
                buf[..n].copy_from_slice(&piece[..n]);
                Ok(n)
            }
            Err(_) => {
                self.faults = self.faults.saturating_add(1);
                Err(Failed)
            }
        }
    }
}

/// A sink over a writer.
#[derive(Drop)]
pub struct WriterSink<W> {
    writer: W,
    faults: u64,
}

impl<W: Write> WriterSink<W> {
    /// A sink over this writer, without a fault so far.
    pub fn new(writer: W) -> WriterSink<W> {
        WriterSink { writer, faults: 0 }
    }
}

impl<W: Write> Sink for WriterSink<W> {
    ghost taken = { λ _. None };

    ghost faults = { λ s. s.faults };

    fn write(&mut self, piece: &[u8]) -> Result<usize, Failed> {
        match self.writer.write(piece) {
            Ok(n) => {
                if n == 0 && !piece.is_empty() {
                    self.faults = self.faults.saturating_add(1);
                }
                Ok(n)
            }
            Err(_) => {
                self.faults = self.faults.saturating_add(1);
                Err(Failed)
            }
        }
    }
}
