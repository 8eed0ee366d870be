//! Standard input and output as source and sink. They don't tell what they hold.

use outside::{Failed, Sink, Source};
use std::io::{Read, Write};

/// A reader as a source. Each failed call is counted.
pub struct ReaderSource<R> {
    reader: R,
    faults: u64,
}

impl<R: Drop> Drop for ReaderSource<R> {
    fn drop(self) {
        let Self {
            reader: _,
            faults: _,
        } = self;
    }
}

impl<R> ReaderSource<R> {
    /// The source of a reader's bytes.
    pub fn new(reader: R) -> Self {
        ReaderSource { reader, faults: 0 }
    }
}

impl<R: Read> Source for ReaderSource<R> {
    ghost use Rattle.std.specs.Prelude.{None};

    ghost left = { λ _. None };

    ghost faults = { λ source. source.faults };

    fn take(&mut self, buf: &mut [u8]) -> Result<usize, Failed> {
        match self.reader.read(buf) {
            Ok(count) => Ok(count),
            Err(_) => {
                self.faults = self.faults.saturating_add(1);
                Err(Failed)
            }
        }
    }
}

/// A writer as a sink. Each failed call is counted, and each that took nothing.
pub struct WriterSink<W> {
    writer: W,
    faults: u64,
}

impl<W: Drop> Drop for WriterSink<W> {
    fn drop(self) {
        let Self {
            writer: _,
            faults: _,
        } = self;
    }
}

impl<W> WriterSink<W> {
    /// The sink over a writer.
    pub fn new(writer: W) -> Self {
        WriterSink { writer, faults: 0 }
    }
}

impl<W: Write> Sink for WriterSink<W> {
    ghost use Rattle.std.specs.Prelude.{None};

    ghost written = { λ _. None };

    ghost faults = { λ sink. sink.faults };

    fn put(&mut self, bytes: &[u8]) -> Result<usize, Failed> {
        match self.writer.write(bytes) {
            Ok(0) => {
                self.faults = self.faults.saturating_add(1);
                Ok(0)
            }
            Ok(count) => Ok(count),
            Err(_) => {
                self.faults = self.faults.saturating_add(1);
                Err(Failed)
            }
        }
    }
}
