//! The sink of standard output, over that output itself and over one that takes little.
ghost use Rattle.std.specs.Io.{WritesAtMost};

use crate::{Sink, SinkFault, StdSink};
use std::cell::Cell;
use std::fmt::Display;
use std::fs::{File, OpenOptions};
use std::io::{self, ErrorKind, PipeWriter, Write};
use std::test::Fail;

#[test]
fn standard_output(rt: HostRuntime) {
    assert!(rt; StdSink::new(&rt).put(b"written\n") == Ok(8));
}

/// What makes one write of the system, or stands for it.
trait Device {
    fn accept(&self, bytes: &[u8]) -> io::Result<usize>
        ensures { WritesAtMost result bytes.now };
}

/// An output that writes to a device.
#[derive(Drop)]
struct Output<D> {
    device: D,
}

impl<D: Device> Print for Output<D> {
    fn print<T: Display + Drop>(&self, _value: T) -> io::Result<()> {
        Err(io::Error::from(ErrorKind::Unsupported))
    }

    fn println<T: Display + Drop>(&self, _value: T) -> io::Result<()> {
        Err(io::Error::from(ErrorKind::Unsupported))
    }

    fn write_all(&self, _bytes: &[u8]) -> io::Result<()> {
        Err(io::Error::from(ErrorKind::Unsupported))
    }

    fn write_some(&self, bytes: &[u8]) -> io::Result<usize> {
        self.device.accept(bytes)
    }
}

/// Accepts one byte a write, and none once it is full.
#[derive(Drop)]
struct Narrow {
    room: Cell<u8>,
    last: Cell<u8>,
}

impl Device for Narrow {
    fn accept(&self, bytes: &[u8]) -> io::Result<usize> {
        if self.room.get() == 0 || bytes.is_empty() {
            return Ok(0);
        }
        self.room.set(self.room.get().saturating_sub(1));
        self.last.set(bytes[0]);
        Ok(1)
    }
}

impl Device for File {
    fn accept(&self, bytes: &[u8]) -> io::Result<usize> {
        let mut file = self;
        file.write(bytes)
    }
}

impl Device for PipeWriter {
    fn accept(&self, bytes: &[u8]) -> io::Result<usize> {
        let mut end = self;
        end.write(bytes)
    }
}

/// Pieces with what comes of them, and the byte that was accepted last.
const PUTS: [(&[u8], Result<usize, SinkFault>, u8); 3] = [
    (b"abc", Ok(1), b'a'),
    (b"bc", Ok(1), b'b'),
    (b"c", Err(SinkFault::Failed), b'b'),
];

#[test]
fn writes_what_the_output_accepts(rt: HostRuntime) {
    let device = Narrow {
        room: Cell::new(2),
        last: Cell::new(b'-'),
    };
    let output = Output { device };
    let mut sink = StdSink::new(&output);
    for (piece, outcome, last) in &PUTS {
        assert!(rt; !piece.is_empty());
        let written = sink.put(piece);
        assert!(rt; written == *outcome, "the outcome of a put");
        assert!(rt; output.device.last.get() == *last, "the last byte");
    }
}

#[test]
fn a_full_device(rt: HostRuntime) -> Result<(), Fail> {
    let device = OpenOptions::new().write(true).open(&rt, "/dev/full")?;
    let output = Output { device };
    assert!(rt; StdSink::new(&output).put(b"more") == Err(SinkFault::Failed));
    Ok(())
}

/// The end of the process by a signal, which the system has for such a write, would fail the test.
#[test]
fn a_closed_pipe(rt: HostRuntime) -> Result<(), Fail> {
    let (reader, device) = io::pipe(&rt)?;
    let output = Output { device };
    let mut sink = StdSink::new(&output);
    assert!(rt; sink.put(b"some") == Ok(4), "a pipe with a reader");
    drop(reader);
    assert!(rt;
        sink.put(b"more") == Err(SinkFault::Failed),
        "a pipe without one"
    );
    Ok(())
}
