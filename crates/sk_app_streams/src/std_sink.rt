//! A writer as a sink.

ghost use Rattle.std.specs.Prelude.{ℕ, List, Option, None, ◌≡◌, ◌≤◌, ◌<◌, length, take, IsOk, OnOk};
ghost use Rattle.std.specs.Io.KnownBytes.{Appends, Keeps};
ghost use Rattle.sk_base.specs.Stream.{Counts, IsWritten};
ghost use Rattle.sk_app_streams.specs.Calls.{IsOneWrite};

use crate::write_once::WriteOnce;
use sk_base::{Put, Sink};
use std::alloc::AllocError;

/// A writer as a sink, such as standard output. It counts the writes that fail.
#[derive(Drop)]
pub struct StdSink<W> {
    writer: W,
    faults: u64,
}

impl<W> StdSink<W> {
    /// A sink that writes to the writer, which has not failed yet.
    pub fn new(writer: W) -> StdSink<W>
        ensures writer { result.writer ≡ writer }
        ensures faults { result.faults ≡ 0 }
    {
        StdSink { writer, faults: 0 }
    }
}

impl<W: WriteOnce> Sink for StdSink<W> {
    ghost faults = { λ sink. sink.faults };

    ghost held = { λ sink. None };

    ghost spare = { λ sink. 18446744073709551615 };

    /// Does nothing: standard output has room for what is written.
    fn reserve(&mut self, _room: usize) -> Result<(), AllocError>
        ensures ok { IsOk result }
        ensures untouched { self.new ≡ self.old }
        ensures room { OnOk result (_room ≤ 18446744073709551615) }
        ensures count { self.new.faults ≡ self.old.faults }
    {
        Ok(())
    }

    /// Calls the writer once, and answers what that call gave: `Failed` where it failed, or took no byte.
    fn write(&mut self, bytes: &[u8]) -> Put
        requires some { 0 < length bytes.now }
        requires room { length bytes.now ≤ 18446744073709551615 }
        ensures count { Counts self.old.faults self.new.faults }
        ensures put { IsWritten result bytes.now self.old.faults self.new.faults None None 18446744073709551615 18446744073709551615 }
        ensures once { IsOneWrite (W.one_write self.old.writer bytes.now self.new.writer) result self.old.faults self.new.faults }
        ensures wrote { (n : ℕ) → result ≡ Put.Wrote n → Appends (W.contents self.old.writer) (W.contents self.new.writer) (take n bytes.now) }
        ensures failed { result ≡ Put.Failed → Keeps (W.contents self.old.writer) (W.contents self.new.writer) }
    {
        let faults = self.faults;
        match self.writer.write_once(bytes) {
            Ok(0) | Err(_) => {
                self.faults = faults.saturating_add(1);
                Put::Failed
            }
            Ok(count) => Put::Wrote(count),
        }
    }
}
