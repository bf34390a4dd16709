//! A source that ends in its own way, and a sink that makes no room, each over another one, where a row sets them.
ghost use Rattle.std.specs.Prelude.{◌≡◌, ◌<◌, ◌≤◌, length, None, OnErr, OnOk};
ghost use Rattle.sk_base.specs.Stream.{Counts, IsRead, IsWritten};

use sk_base::{Got, Put, Sink, Source};
use std::alloc::AllocError;

/// A source behind whose bytes stand so many blanks, and which may give `Bytes(0)` behind these in place of `End`. It does not
/// tell what is left.
#[derive(Drop)]
pub struct FakeSource<S> {
    source: S,
    blanks: u32,
    gives_zero: bool,
}

impl<S> FakeSource<S> {
    /// The same source with so many blanks behind it.
    pub fn new(source: S, blanks: u32, gives_zero: bool) -> FakeSource<S> {
        FakeSource {
            source,
            blanks,
            gives_zero,
        }
    }

    // The next blanks, or that there are no more.
    fn give_blanks(&mut self, into: &mut [u8]) -> Got
        ensures source { self.new.source ≡ self.old.source }
        ensures got { IsRead result into.new 0 0 None None }
    {
        let count = into.len().min(self.blanks as usize);
        if count == 0 {
            return if self.gives_zero {
                Got::Bytes(0)
            } else {
                Got::End
            };
        }
        into[..count].fill(b' ');
        self.blanks = self.blanks.saturating_sub(count as u32);
        Got::Bytes(count)
    }
}

impl<S: Source> Source for FakeSource<S> {
    ghost faults = { λ it. S.faults it.source };

    ghost left = { λ it. None };

    fn read(&mut self, into: &mut [u8]) -> Got
        requires { 0 < length into.old }
        ensures count { Counts (S.faults self.old.source) (S.faults self.new.source) }
        ensures got { IsRead result into.new (S.faults self.old.source) (S.faults self.new.source) None None }
    {
        match self.source.read(into) {
            Got::Bytes(count) => Got::Bytes(count),
            Got::End => self.give_blanks(into),
            Got::Failed => Got::Failed,
        }
    }
}

/// A sink that may refuse to make room.
#[derive(Drop)]
pub struct FakeSink<K> {
    sink: K,
    is_full: bool,
}

impl<K> FakeSink<K> {
    /// The same sink, which makes no room where it is full.
    pub fn new(sink: K, is_full: bool) -> FakeSink<K> {
        FakeSink { sink, is_full }
    }

    /// The sink below.
    pub fn sink(&self) -> &K {
        &self.sink
    }
}

impl<K: Sink> Sink for FakeSink<K> {
    ghost faults = { λ it. K.faults it.sink };

    ghost held = { λ it. K.held it.sink };

    ghost spare = { λ it. K.spare it.sink };

    fn reserve(&mut self, room: usize) -> Result<(), AllocError>
        ensures room { OnOk result (room ≤ K.spare self.new.sink) }
        ensures refused { OnErr result (K.spare self.new.sink ≡ K.spare self.old.sink) }
        ensures count { K.faults self.new.sink ≡ K.faults self.old.sink }
        ensures held { K.held self.new.sink ≡ K.held self.old.sink }
    {
        if self.is_full {
            return Err(AllocError);
        }
        self.sink.reserve(room)
    }

    fn write(&mut self, bytes: &[u8]) -> Put
        requires some { 0 < length bytes.now }
        requires room { length bytes.now ≤ K.spare self.old.sink }
        ensures count { Counts (K.faults self.old.sink) (K.faults self.new.sink) }
        ensures put { IsWritten result bytes.now (K.faults self.old.sink) (K.faults self.new.sink) (K.held self.old.sink) (K.held self.new.sink) (K.spare self.old.sink) (K.spare self.new.sink) }
    {
        self.sink.write(bytes)
    }
}
