//! Std's readers and writers as a source and a sink. What they give and take is not told.
ghost use Rattle.std.specs.Prelude.{None, ◌≡◌};

use crate::{Failed, Sink, Source};
use std::io::{Read, Write};

/// A source over a reader of std.
#[derive(Drop)]
pub struct ReaderSource<R> {
    reader: R,
    faults: u64,
}

impl<R: Read> ReaderSource<R> {
    /// A source over this reader, with no fault so far.
    pub fn new(reader: R) -> ReaderSource<R>
        ensures { result.faults ≡ 0 }
    {
        ReaderSource { reader, faults: 0 }
    }
}

impl<R: Read> Source for ReaderSource<R> {
    ghost left = { λ _. None };

    ghost faults = { λ s. s.faults };

    fn read(&mut self, out: &mut [u8]) -> Result<usize, Failed> {
        match self.reader.read(out) {
            Ok(count) => Ok(count),
            Err(_) => {
                self.faults = self.faults.saturating_add(1);
                Err(Failed)
            }
        }
    }
}

/// A sink over a writer of std. A write that takes none of a piece is a fault.
#[derive(Drop)]
pub struct WriterSink<W> {
    writer: W,
    faults: u64,
}

impl<W: Write> WriterSink<W> {
    /// A sink over this writer, with no fault so far.
    pub fn new(writer: W) -> WriterSink<W>
        ensures { result.faults ≡ 0 }
    {
        WriterSink { writer, faults: 0 }
    }
}

impl<W: Write> Sink for WriterSink<W> {
    ghost held = { λ _. None };

    ghost faults = { λ s. s.faults };

    fn write(&mut self, piece: &[u8]) -> Result<usize, Failed> {
        match self.writer.write(piece) {
            Ok(count) if count > 0 || piece.is_empty() => Ok(count),
            _ => {
                self.faults = self.faults.saturating_add(1);
                Err(Failed)
            }
        }
    }
}
