//! A counting writer over one that shows whether it was flushed, and streams that signals interrupt.

use pf_stream::reading::read_script;
use pf_stream::sink::{CountedWriter, Sink};
use pf_stream::source::{CountedReader, Source};
use pf_stream::writing::write_out;
use std::io;
use std::io::{ErrorKind, Read, Write};

/// Takes all bytes.
#[derive(Drop)]
struct Flushed {
    /// Whether it was flushed.
    is_flushed: bool,
}

impl Write for Flushed {
    fn write(&mut self, buf: &[u8]) -> io::Result<usize> {
        Ok(buf.len())
    }

    fn flush(&mut self) -> io::Result<()> {
        self.is_flushed = true;
        Ok(())
    }
}

#[test]
fn a_flush_reaches_the_writer(rt: HostRuntime) -> io::Result<()> {
    let mut writer = CountedWriter::new(Flushed { is_flushed: false });
    writer.flush()?;
    assert!(rt; writer.into_inner().is_flushed);
    Ok(())
}

/// A stream whose every other call a signal interrupts: it gives so many bytes, one a call, and takes a byte a call.
#[derive(Drop)]
struct Interrupted {
    /// Whether the next call is interrupted.
    is_next: bool,
    /// The bytes that are left.
    left: usize,
}

impl Interrupted {
    /// Whether this call is interrupted; the next one is where this one is not.
    fn turn(&mut self) -> bool {
        self.is_next = !self.is_next;
        !self.is_next
    }
}

impl Read for Interrupted {
    fn read(&mut self, buf: &mut [u8]) -> io::Result<usize> {
        if self.turn() {
            return Err(io::Error::from(ErrorKind::Interrupted));
        }
        if self.left == 0 || buf.is_empty() {
            return Ok(0);
        }
        buf[0] = b'x';
        self.left -= 1;
        Ok(1)
    }
}

impl Write for Interrupted {
    fn write(&mut self, buf: &[u8]) -> io::Result<usize> {
        if self.turn() {
            return Err(io::Error::from(ErrorKind::Interrupted));
        }
        if self.left == 0 || buf.is_empty() {
            return Ok(0);
        }
        self.left -= 1;
        Ok(1)
    }

    fn flush(&mut self) -> io::Result<()> {
        Ok(())
    }
}

#[test]
fn an_interruption_is_no_end(rt: HostRuntime) {
    let mut reader = CountedReader::new(Interrupted {
        is_next: true,
        left: 3,
    });
    let read = read_script(rt.alloc(), &mut reader);
    let is_whole = match &read {
        Ok(script) => script.as_slice() == b"xxx".as_slice(),
        Err(_) => false,
    };
    assert!(rt; is_whole && reader.failures() == 0);
}

#[test]
fn an_interruption_is_no_failed_write(rt: HostRuntime) {
    let mut writer = CountedWriter::new(Interrupted {
        is_next: true,
        left: 3,
    });
    let is_written = write_out(&mut writer, b"xxx").is_ok();
    assert!(rt; is_written && writer.failures() == 0);
    assert!(rt; write_out(&mut writer, b"x").is_err() && writer.failures() == 1);
}
