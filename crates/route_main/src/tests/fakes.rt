//! A reader and a writer for tests, which move few bytes a call and fail at a call that is named.
ghost use Rattle.std.specs.Prelude.{◌<◌, Some};

use std::alloc::Global;
use std::io::{self, ErrorKind, Read, Write};

/// Reads from bytes, at most `most` of them a call; its call number `fault_at` answers an error.
#[derive(Drop)]
pub(crate) struct FakeReader<'a> {
    bytes: &'a [u8],
    most: usize,
    fault_at: u64,
    calls: u64,
    ghost moves: { 0 < most },
}

impl<'a> FakeReader<'a> {
    pub(crate) fn new(bytes: &'a [u8], most: usize, fault_at: u64) -> FakeReader<'a>
        requires { 0 < most }
    {
        FakeReader {
            bytes,
            most,
            fault_at,
            calls: 0,
        }
    }
}

impl Read for FakeReader<'_> {
    ghost remaining = { λ r. Some r.bytes.now };

    fn read(&mut self, buf: &mut [u8]) -> io::Result<usize> {
        self.calls = self.calls.saturating_add(1);
        if self.calls == self.fault_at {
            return Err(io::Error::from(ErrorKind::Other));
        }
        let moved = buf.len().min(self.most).min(self.bytes.len());
        let (front, rest) = self.bytes.split_at(moved);
        buf[..moved].copy_from_slice(front);
        self.bytes = rest;
        Ok(moved)
    }
}

/// How a write fails.
#[derive(Clone, Copy, Debug, PartialEq, Eq)]
pub(crate) enum Fault {
    Error,
    TakesNone,
}

/// Keeps what is written, at most `most` bytes of a call; its call number `fault_at` fails.
#[derive(Drop)]
pub(crate) struct FakeWriter {
    pub(crate) bytes: Vec<u8>,
    most: usize,
    fault_at: u64,
    fault: Fault,
    calls: u64,
}

impl FakeWriter {
    pub(crate) fn new(alloc: Global, most: usize, fault_at: u64, fault: Fault) -> FakeWriter {
        FakeWriter {
            bytes: Vec::new(alloc),
            most,
            fault_at,
            fault,
            calls: 0,
        }
    }
}

impl Write for FakeWriter {
    ghost contents = { λ w. Some w.bytes.items };

    fn write(&mut self, buf: &[u8]) -> io::Result<usize> {
        self.calls = self.calls.saturating_add(1);
        if self.calls == self.fault_at {
            return match self.fault {
                Fault::Error => Err(io::Error::from(ErrorKind::Other)),
                Fault::TakesNone => Ok(0),
            };
        }
        let moved = buf.len().min(self.most);
        self.bytes.extend_from_slice(&buf[..moved])?;
        Ok(moved)
    }

    fn flush(&mut self) -> io::Result<()> {
        Ok(())
    }
}
