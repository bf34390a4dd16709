//! A sink that erases the line that shows that a search goes on before it writes.
ghost use Rattle.std.specs.Prelude.{◌≡◌, ◌<◌, ◌≤◌, length, OnErr, OnOk};
ghost use Rattle.sk_base.specs.Stream.{Counts, IsWritten};

use crate::watcher::clear;
use sk_base::{Put, Sink};
use std::alloc::AllocError;
use std::cell::Cell;
use std::io::Write;

/// A sink, and the line that shows that a search goes on, which is erased before anything is written.
#[derive(Drop)]
pub struct ClearingSink<'a, K, W> {
    sink: K,
    errors: W,
    shown: &'a Cell<bool>,
}

impl<'a, K, W> ClearingSink<'a, K, W> {
    /// The sink, with the stream of the line, and whether it stands there.
    pub fn new(sink: K, errors: W, shown: &'a Cell<bool>) -> ClearingSink<'a, K, W>
        ensures { result.sink ≡ sink }
    {
        ClearingSink {
            sink,
            errors,
            shown,
        }
    }
}

impl<'a, K: Sink, W: Write> Sink for ClearingSink<'a, K, W> {
    ghost faults = { λ it. K.faults it.sink };

    ghost held = { λ it. K.held it.sink };

    ghost spare = { λ it. K.spare it.sink };

    /// Makes room in its sink.
    fn reserve(&mut self, room: usize) -> Result<(), AllocError>
        ensures room { OnOk result (room ≤ K.spare self.new.sink) }
        ensures refused { OnErr result (K.spare self.new.sink ≡ K.spare self.old.sink) }
        ensures count { K.faults self.new.sink ≡ K.faults self.old.sink }
        ensures held { K.held self.new.sink ≡ K.held self.old.sink }
    {
        self.sink.reserve(room)
    }

    /// Erases the line, and writes as its sink does.
    fn write(&mut self, bytes: &[u8]) -> Put
        requires some { 0 < length bytes.now }
        requires room { length bytes.now ≤ K.spare self.old.sink }
        ensures count { Counts (K.faults self.old.sink) (K.faults self.new.sink) }
        ensures put { IsWritten result bytes.now (K.faults self.old.sink) (K.faults self.new.sink) (K.held self.old.sink) (K.held self.new.sink) (K.spare self.old.sink) (K.spare self.new.sink) }
    {
        clear(&mut self.errors, self.shown);
        self.sink.write(bytes)
    }
}
