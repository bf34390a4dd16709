//! A source that keeps what was read of it, and a sink that keeps what was written to it.
ghost use Rattle.std.specs.Prelude.{◌≡◌, ◌<◌, ◌≤◌, ◌++◌, [], length, take, option_map, true, IsTrue, OnErr, OnOk};
ghost use Rattle.sk_base.specs.Stream.{Counts, IsRead, IsWritten};
ghost use Rattle.sk_explain.specs.Keeping.{Keeps, Takes, kept_bytes};

use sk_base::{Got, Put, Sink, Source};
use std::alloc::{AllocError, Global};

/// The bytes that a source gave, or a sink took.
#[derive(Drop)]
pub struct Kept {
    bytes: Vec<u8>,
    /// Whether they are all: there was memory for them.
    is_whole: bool,
}

impl Kept {
    // Keeps the bytes that a read gave.
    fn keep(&mut self, got: Got, into: &[u8])
        ensures { Keeps got into.now self.old self.new }
    {
        match got {
            Got::Bytes(count) => self.push(front(into, count)),
            Got::End | Got::Failed => {}
        }
    }

    // Keeps the bytes that a write took.
    fn take(&mut self, put: Put, bytes: &[u8])
        ensures { Takes put bytes.now self.old self.new }
    {
        match put {
            Put::Wrote(count) => self.push(front(bytes, count)),
            Put::Failed => {}
        }
    }

    // Appends bytes.
    fn push(&mut self, bytes: &[u8])
        ensures before { IsTrue self.new.is_whole → IsTrue self.old.is_whole }
        ensures bytes { IsTrue self.new.is_whole → self.new.bytes.items ≡ self.old.bytes.items ++ bytes.now }
    {
        match self.bytes.extend_from_slice(bytes) {
            Ok(()) => {}
            Err(_) => self.is_whole = false,
        }
    }
}

// The front of some bytes: so many, or all where there are fewer.
fn front(bytes: &[u8], count: usize) -> &[u8]
    ensures { result.now ≡ take count bytes.now }
{
    if count < bytes.len() {
        &bytes[..count]
    } else {
        bytes
    }
}

/// A source, and the bytes that it gave.
#[derive(Drop)]
pub struct KeptSource<S> {
    source: S,
    kept: Kept,
}

impl<S> KeptSource<S> {
    /// A source of which nothing was read. It takes no memory.
    pub fn new(alloc: Global, source: S) -> KeptSource<S>
        ensures source { result.source ≡ source }
        ensures whole { result.kept.is_whole ≡ true }
        ensures kept { result.kept.bytes.items ≡ [] }
    {
        let kept = Kept {
            bytes: Vec::new(alloc),
            is_whole: true,
        };
        KeptSource { source, kept }
    }

    /// The bytes that it gave, in order; none where memory was wanting for them.
    pub fn kept(&self) -> Option<&[u8]>
        ensures { option_map (λ bytes. bytes.now) result ≡ kept_bytes self.now.kept }
    {
        if self.kept.is_whole {
            Some(self.kept.bytes.as_slice())
        } else {
            None
        }
    }
}

impl<S: Source> Source for KeptSource<S> {
    ghost faults = { λ it. S.faults it.source };

    ghost left = { λ it. S.left it.source };

    /// Reads as its source does, and keeps what that gave.
    fn read(&mut self, into: &mut [u8]) -> Got
        requires { 0 < length into.old }
        ensures count { Counts (S.faults self.old.source) (S.faults self.new.source) }
        ensures got { IsRead result into.new (S.faults self.old.source) (S.faults self.new.source) (S.left self.old.source) (S.left self.new.source) }
        ensures kept { Keeps result into.new self.old.kept self.new.kept }
    {
        let got = self.source.read(into);
        self.kept.keep(got, into);
        got
    }
}

/// A sink, and the bytes that it took.
#[derive(Drop)]
pub struct KeptSink<S> {
    sink: S,
    kept: Kept,
}

impl<S> KeptSink<S> {
    /// A sink to which nothing was written. It takes no memory.
    pub fn new(alloc: Global, sink: S) -> KeptSink<S>
        ensures sink { result.sink ≡ sink }
        ensures whole { result.kept.is_whole ≡ true }
        ensures kept { result.kept.bytes.items ≡ [] }
    {
        let kept = Kept {
            bytes: Vec::new(alloc),
            is_whole: true,
        };
        KeptSink { sink, kept }
    }

    /// The bytes that it took, in order; none where memory was wanting for them.
    pub fn kept(&self) -> Option<&[u8]>
        ensures { option_map (λ bytes. bytes.now) result ≡ kept_bytes self.now.kept }
    {
        if self.kept.is_whole {
            Some(self.kept.bytes.as_slice())
        } else {
            None
        }
    }
}

impl<S: Sink> Sink for KeptSink<S> {
    ghost faults = { λ it. S.faults it.sink };

    ghost held = { λ it. S.held it.sink };

    ghost spare = { λ it. S.spare it.sink };

    /// Makes room in its sink.
    fn reserve(&mut self, room: usize) -> Result<(), AllocError>
        ensures room { OnOk result (room ≤ S.spare self.new.sink) }
        ensures refused { OnErr result (S.spare self.new.sink ≡ S.spare self.old.sink) }
        ensures count { S.faults self.new.sink ≡ S.faults self.old.sink }
        ensures held { S.held self.new.sink ≡ S.held self.old.sink }
        ensures kept { self.new.kept ≡ self.old.kept }
    {
        self.sink.reserve(room)
    }

    /// Writes as its sink does, and keeps what that took.
    fn write(&mut self, bytes: &[u8]) -> Put
        requires some { 0 < length bytes.now }
        requires room { length bytes.now ≤ S.spare self.old.sink }
        ensures count { Counts (S.faults self.old.sink) (S.faults self.new.sink) }
        ensures put { IsWritten result bytes.now (S.faults self.old.sink) (S.faults self.new.sink) (S.held self.old.sink) (S.held self.new.sink) (S.spare self.old.sink) (S.spare self.new.sink) }
        ensures kept { Takes result bytes.now self.old.kept self.new.kept }
    {
        let put = self.sink.write(bytes);
        self.kept.take(put, bytes);
        put
    }
}
