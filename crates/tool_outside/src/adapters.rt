//! std's readers and writers as sources and sinks: the edge to standard input and output.

ghost use Rattle.std.specs.Prelude.{◌≡◌, ◌+◌, ◌-◌, ◌<◌, ◌^◌, false, length, IsErr};
ghost use Rattle.std.specs.Io.{ReadsAtMost};
ghost use Rattle.std.specs.Io.KnownBytes.{ReadConsumes};
ghost use Rattle.tool_outside.specs.Failures.{CountsFaults};
ghost use Rattle.tool_outside.specs.Source.{CountsGiven};

use crate::failures::fail;
use crate::sink::Sink;
use crate::source::{Failed, Source};
use std::io::{Read, Write};

/// A source over a reader. It tells the bytes that the reader tells, and never tries again.
#[derive(Drop)]
pub struct ReaderSource<R> {
    reader: R,
    given: u64,
    faults: u64,
}

impl<R: Read> ReaderSource<R> {
    ghost use Rattle.tool_outside.specs.ReaderSource.{reader_of, given_by, faults_of};

    /// A source over `reader` that has given nothing and has never failed.
    pub fn new(reader: R) -> Self
        ensures reader { reader_of result ≡ reader }
        ensures given { given_by result ≡ 0 }
        ensures faults { faults_of result ≡ 0 }
    {
        ReaderSource {
            reader,
            given: 0,
            faults: 0,
        }
    }
}

impl<R: Read> Source for ReaderSource<R> {
    ghost use Rattle.tool_outside.specs.ReaderSource.{reader_of, given_by, faults_of};

    ghost left = { λ s. R.remaining (reader_of s) };

    ghost given = { given_by };

    ghost faults = { faults_of };

    fn read(&mut self, buf: &mut [u8]) -> Result<usize, Failed>
        // As every source.
        ensures bound { ReadsAtMost result buf.new }
        ensures bytes { ReadConsumes (R.remaining (reader_of self.old))
            (R.remaining (reader_of self.new)) result buf.new }
        ensures given { CountsGiven (given_by self.old) (given_by self.new) result }
        ensures faults { CountsFaults (faults_of self.old) (faults_of self.new) result }

        // Where a read could carry the bytes given past 2^64 - 1, the reader isn't asked.
        ensures full { 2 ^ 64 - 1 < given_by self.old + length buf.old
            → IsErr result × (reader_of self.new ≡ reader_of self.old) }
    {
        if u64::MAX - self.given < buf.len() as u64 {
            return Err(fail(&mut self.faults));
        }
        match self.reader.read(buf) {
            Ok(count) => {
                self.given += count as u64;
                Ok(count)
            }
            Err(_) => Err(fail(&mut self.faults)),
        }
    }
}

/// A sink over a writer. It tells the bytes that the writer tells, and never tries again.
#[derive(Drop)]
pub struct WriterSink<W> {
    writer: W,
    settled: bool,
    faults: u64,
}

impl<W: Write> WriterSink<W> {
    ghost use Rattle.tool_outside.specs.WriterSink.{writer_of, is_settled, faults_of};

    /// A sink over `writer` that isn't settled and has never failed.
    pub fn new(writer: W) -> Self
        ensures writer { writer_of result ≡ writer }
        ensures settled { is_settled result ≡ false }
        ensures faults { faults_of result ≡ 0 }
    {
        WriterSink {
            writer,
            settled: false,
            faults: 0,
        }
    }
}

impl<W: Write> Sink for WriterSink<W> {
    ghost use Rattle.tool_outside.specs.WriterSink.{writer_of, is_settled, faults_of};

    ghost held = { λ s. W.contents (writer_of s) };

    ghost settled = { is_settled };

    ghost faults = { faults_of };

    fn write(&mut self, piece: &[u8]) -> Result<usize, Failed> {
        match self.writer.write(piece) {
            Ok(count) if count > 0 || piece.is_empty() => {
                self.settled = self.settled && piece.is_empty();
                Ok(count)
            }
            Ok(_) | Err(_) => Err(fail(&mut self.faults)),
        }
    }

    fn finish(&mut self) -> Result<(), Failed> {
        match self.writer.flush() {
            Ok(()) => {
                self.settled = true;
                Ok(())
            }
            Err(_) => Err(fail(&mut self.faults)),
        }
    }
}
