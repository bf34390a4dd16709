//! A reader and a writer that count their calls, behind the adapters.
use crate::{StdSink, StdSource};
use sk_base::{Got, Put, Sink, Source};
use std::alloc::Global;
use std::io::{self, ErrorKind, Read, Write};
use std::test::Fail;

/// Moves at most `step` bytes a call, and fails at one of its calls, counted from 0.
#[derive(Drop)]
struct Counted {
    bytes: Vec<u8>,
    /// How many of the bytes were read.
    taken: usize,
    step: usize,
    fails: u32,
    calls: u32,
}

impl Counted {
    fn new(bytes: Vec<u8>, step: usize, fails: u32) -> Counted {
        Counted {
            bytes,
            taken: 0,
            step,
            fails,
            calls: 0,
        }
    }

    // How many bytes of so many move at this call, if it does not fail.
    fn turn(&mut self, count: usize) -> io::Result<usize> {
        let call = self.calls;
        self.calls = call.saturating_add(1);
        if call == self.fails {
            return Err(io::Error::from(ErrorKind::BrokenPipe));
        }
        Ok(count.min(self.step))
    }
}

impl Read for Counted {
    fn read(&mut self, buf: &mut [u8]) -> io::Result<usize> {
        let count = self.turn(buf.len())?;
        let Some(mut rest) = self.bytes.get(self.taken..) else {
            return Ok(0);
        };
        let count = count.min(buf.len());
        let moved = rest.read(&mut buf[..count])?;
        self.taken = self.taken.saturating_add(moved);
        Ok(moved)
    }
}

impl Write for Counted {
    fn write(&mut self, buf: &[u8]) -> io::Result<usize> {
        let count = self.turn(buf.len())?.min(buf.len());
        self.bytes.extend_from_slice(&buf[..count])?;
        Ok(count)
    }

    fn flush(&mut self) -> io::Result<()> {
        Ok(())
    }
}

/// What a source answers, read after read, over a reader of six bytes.
#[derive(Drop)]
struct Reads {
    step: usize,
    fails: u32,
    answers: &'static [Got],
    calls: u32,
}

// A short read is no failure, after a failure the bytes that were left come, and behind the end the reader is not called.
#[test]
fn a_read_is_one_call(rt: HostRuntime) -> Result<(), Fail> {
    let rows = [
        Reads {
            step: 2,
            fails: 1,
            answers: &[
                Got::Bytes(2),
                Got::Failed,
                Got::Bytes(2),
                Got::Bytes(2),
                Got::End,
                Got::End,
            ],
            calls: 5,
        },
        Reads {
            step: 9,
            fails: 0,
            answers: &[Got::Failed, Got::Bytes(6), Got::End, Got::End],
            calls: 3,
        },
        Reads {
            step: 4,
            fails: 2,
            answers: &[Got::Bytes(4), Got::Bytes(2), Got::Failed, Got::End],
            calls: 4,
        },
    ];
    for row in &rows {
        let mut reader = Counted::new(b"sketch".to_vec(rt.alloc())?, row.step, row.fails);
        let mut source = StdSource::new(&mut reader);
        let mut into = [0u8; 8];
        for answer in row.answers {
            assert_eq!(rt; source.read(&mut into), *answer, "at step {}", row.step);
        }
        assert_eq!(rt; reader.calls, row.calls, "at step {}", row.step);
    }
    Ok(())
}

/// What a sink answers, write after write, where six bytes are offered and then what is left of them.
#[derive(Drop)]
struct Writes {
    step: usize,
    fails: u32,
    answers: &'static [Put],
    held: &'static [u8],
}

// A short write is told as it is, what failed adds nothing, and a write of no byte has failed.
#[test]
fn a_write_is_one_call(rt: HostRuntime) -> Result<(), Fail> {
    let rows = [
        Writes {
            step: 2,
            fails: 1,
            answers: &[Put::Wrote(2), Put::Failed, Put::Wrote(2), Put::Wrote(2)],
            held: b"sketch",
        },
        Writes {
            step: 4,
            fails: 1,
            answers: &[Put::Wrote(4), Put::Failed],
            held: b"sket",
        },
        Writes {
            step: 0,
            fails: 9,
            answers: &[Put::Failed, Put::Failed],
            held: b"",
        },
    ];
    for row in &rows {
        let mut writer = Counted::new(Vec::new(rt.alloc()), row.step, row.fails);
        let mut sink = StdSink::new(&mut writer);
        let mut rest = b"sketch".as_slice();
        for answer in row.answers {
            assert!(rt; !rest.is_empty() && rest.len() <= 6);
            let put = sink.write(rest);
            assert_eq!(rt; put, *answer, "at step {}", row.step);
            if let Put::Wrote(count) = put {
                rest = rest.get(count..).ok_or("more than was offered")?;
            }
        }
        assert_eq!(rt; writer.bytes.as_slice(), row.held);
        assert_eq!(rt;
            writer.calls as usize,
            row.answers.len(),
            "at step {}",
            row.step
        );
    }
    Ok(())
}
