//! A reader and a writer that move few bytes at a time, and fail at the listed calls. They stand in for standard input and
//! output, behind the adapters that the product hands to `run`.
use crate::settings::Stream;
use sk_base::List;
use std::alloc::Global;
use std::io::{self, ErrorKind, Read, Write};

/// What stands at the one end of a stream, and its calls.
#[derive(Drop)]
pub struct Halting {
    bytes: Vec<u8>,
    /// How many of the bytes were read.
    taken: usize,
    stream: Stream,
    calls: u32,
}

impl Halting {
    /// A reader of these bytes.
    pub fn reader(bytes: Vec<u8>, stream: Stream) -> Halting {
        Halting {
            bytes,
            taken: 0,
            stream,
            calls: 0,
        }
    }

    /// A writer that holds nothing.
    pub fn writer(alloc: Global, stream: Stream) -> Halting {
        Halting {
            bytes: Vec::new(alloc),
            taken: 0,
            stream,
            calls: 0,
        }
    }

    /// What it holds.
    pub fn into_bytes(self) -> Vec<u8> {
        let Halting {
            bytes,
            taken: _,
            stream: _,
            calls: _,
        } = self;
        bytes
    }

    // How many bytes of so many move at this call, if it does not fail.
    fn turn(&mut self, count: usize) -> io::Result<usize> {
        let call = self.calls;
        self.calls = call.saturating_add(1);
        if is_listed(&self.stream.fails, call) {
            return Err(io::Error::from(ErrorKind::BrokenPipe));
        }
        Ok(count.min(self.stream.step as usize))
    }
}

fn is_listed(fails: &List<u32>, call: u32) -> bool {
    fails.as_slice().iter().any(|it| *it == call)
}

impl Read for Halting {
    fn read(&mut self, buf: &mut [u8]) -> io::Result<usize> {
        let count = self.turn(buf.len())?;
        let Some(mut rest) = self.bytes.get(self.taken..) else {
            return Ok(0);
        };
        let count = count.min(buf.len());
        let moved = rest.read(&mut buf[..count])?;
        self.taken = self.taken.saturating_add(moved);
        Ok(moved)
    }
}

impl Write for Halting {
    fn write(&mut self, buf: &[u8]) -> io::Result<usize> {
        let count = self.turn(buf.len())?.min(buf.len());
        self.bytes.extend_from_slice(&buf[..count])?;
        Ok(count)
    }

    fn flush(&mut self) -> io::Result<()> {
        Ok(())
    }
}
