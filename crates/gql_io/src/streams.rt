//! The trusted edge: std's readers and writers, as a source and a sink.
ghost use Rattle.std.specs.Prelude.{◌≡◌};

use crate::sink::{Sink, SinkFault};
use crate::source::{Failed, Source};
use std::io::{Read, Write};

/// A reader of std as a source. It counts each fault of the reader.
#[derive(Drop)]
pub struct StdSource<I> {
    reader: I,
    given: u64,
    faults: u64,
}

impl<I: Read> StdSource<I> {
    /// A source that reads from this reader, and has given nothing yet.
    pub fn new(reader: I) -> StdSource<I>
        ensures left { ⟦<StdSource<I> as Source>⟧.left result ≡ I.remaining reader }
        ensures given { ⟦<StdSource<I> as Source>⟧.given result ≡ 0 }
        ensures faults { ⟦<StdSource<I> as Source>⟧.faults result ≡ 0 }
    {
        StdSource {
            reader,
            given: 0,
            faults: 0,
        }
    }
}

impl<I: Read> Source for StdSource<I> {
    ghost left = { λ source. I.remaining source.reader };

    ghost given = { λ source. source.given };

    ghost faults = { λ source. source.faults };

    fn read(&mut self, buf: &mut [u8]) -> Result<usize, Failed> {
        match self.reader.read(buf) {
            Ok(count) => {
                self.given = self.given.saturating_add(count as u64);
                Ok(count)
            }
            Err(_) => {
                self.faults = self.faults.saturating_add(1);
                Err(Failed)
            }
        }
    }
}

/// A writer of std as a sink. It counts each fault of the writer, and each write of nothing.
#[derive(Drop)]
pub struct StdSink<O> {
    writer: O,
    faults: u64,
}

impl<O: Write> StdSink<O> {
    /// A sink that writes to this writer.
    pub fn new(writer: O) -> StdSink<O>
        ensures held { ⟦<StdSink<O> as Sink>⟧.held result ≡ O.contents writer }
        ensures faults { ⟦<StdSink<O> as Sink>⟧.faults result ≡ 0 }
    {
        StdSink { writer, faults: 0 }
    }
}

impl<O: Write> Sink for StdSink<O> {
    ghost held = { λ sink. O.contents sink.writer };

    ghost faults = { λ sink. sink.faults };

    fn write(&mut self, bytes: &[u8]) -> Result<usize, SinkFault> {
        match self.writer.write(bytes) {
            Ok(count) if count > 0 || bytes.is_empty() => Ok(count),
            _ => {
                self.faults = self.faults.saturating_add(1);
                Err(SinkFault::Failed)
            }
        }
    }
}
