//! std's readers and writers as sources and sinks.

use crate::samples::TEXT;
use mangle_tool::adapters::{ReaderSource, WriterSink};
use mangle_tool::read_all::{ReadAllError, read_all};
use mangle_tool::source::Failed;
use mangle_tool::write_whole::write_whole;
use std::io::{self, Cursor, ErrorKind, Read, Write};
use std::test::Fail;

// Gives `a`, fails, and then gives `b` before its end.
#[derive(Drop)]
struct Stumbling {
    calls: u8,
}

impl Read for Stumbling {
    fn read(&mut self, buf: &mut [u8]) -> io::Result<usize> {
        let call = self.calls;
        self.calls = call.saturating_add(1);
        let byte = match call {
            0 => b'a',
            1 => return Err(io::Error::from(ErrorKind::Interrupted)),
            2 => b'b',
            _ => return Ok(0),
        };
        match buf.first_mut() {
            Some(first) => {
                *first = byte;
                Ok(1)
            }
            None => Ok(0),
        }
    }
}

#[test]
fn a_reader_is_a_source(rt: HostRuntime) -> Result<(), Fail> {
    let mut source = ReaderSource::new(Cursor::new(TEXT));
    let read = read_all(rt.alloc(), &mut source, 100)?;
    assert!(rt; read.as_slice() == TEXT);
    Ok(())
}

#[test]
fn a_reader_that_failed_is_read_on(rt: HostRuntime) -> Result<(), Fail> {
    let mut source = ReaderSource::new(Stumbling { calls: 0 });
    let failed = read_all(rt.alloc(), &mut source, 100);
    assert!(rt; failed.err() == Some(ReadAllError::Failed));
    let rest = read_all(rt.alloc(), &mut source, 100)?;
    assert!(rt; rest.as_slice() == b"b".as_slice());
    Ok(())
}

#[test]
fn a_writer_is_a_sink(rt: HostRuntime) -> Result<(), Fail> {
    let mut written = Vec::new(rt.alloc());
    write_whole(&mut WriterSink::new(&mut written), TEXT)?;
    assert!(rt; written.as_slice() == TEXT);
    Ok(())
}

#[test]
fn a_writer_that_takes_no_more_bytes_fails(rt: HostRuntime) {
    let mut room = [0; 9];
    let outcome = write_whole(&mut WriterSink::new(room.as_mut_slice()), TEXT);
    assert!(rt; outcome == Err(Failed));
    assert!(rt; room.as_slice() == b"{\"node\":\n".as_slice());
}

// Takes all bytes, counts how often it is flushed, and fails then if it is to.
#[derive(Drop)]
struct Flushes {
    count: u8,
    fails: bool,
}

impl Write for Flushes {
    fn write(&mut self, buf: &[u8]) -> io::Result<usize> {
        Ok(buf.len())
    }

    fn flush(&mut self) -> io::Result<()> {
        self.count = self.count.saturating_add(1);
        if self.fails {
            Err(io::Error::from(ErrorKind::Other))
        } else {
            Ok(())
        }
    }
}

// Whether writing to a writer whose flush fails, if it is to, ends so, with one flush.
fn is_flushed_once(fails: bool, outcome: Result<(), Failed>) -> bool {
    let mut writer = Flushes { count: 0, fails };
    let written = write_whole(&mut WriterSink::new(&mut writer), TEXT);
    written == outcome && writer.count == 1
}

#[test]
fn a_writer_is_flushed_once_at_the_end(rt: HostRuntime) {
    for (fails, outcome) in [(false, Ok(())), (true, Err(Failed))] {
        assert!(rt; is_flushed_once(fails, outcome));
    }
}
