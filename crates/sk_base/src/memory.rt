//! Sources and sinks in memory. Their calls have numbers, from 0; the calls that a list names fail.
ghost use Rattle.std.specs.Prelude.{ℕ, List, Option, Some, false, ◌≡◌, ◌≤◌, ◌<◌, ◌+◌, ◌-◌, ◌++◌, [], length, take, drop, vec_len, vec_capacity, min, OnOk, OnErr};
ghost use Rattle.sk_base.specs.Stream.{greatest_count, Counts, IsRead, IsWritten};
ghost use Rattle.sk_base.specs.Memory.{is_listed, counted, memory_read, memory_written};

use crate::List;
use crate::sink::{Put, Sink};
use crate::source::{Got, Source};
use std::alloc::{AllocError, Global};

// Whether a number is listed.
fn lists(numbers: &[u32], number: u64) -> bool
    ensures { result ≡ is_listed numbers.now number }
{
    let mut rest = numbers;
    while let [first, after @ ..] = rest {
        if *first as u64 == number {
            return true;
        }
        rest = after;
    }
    false
}

// The smaller of two numbers of bytes.
fn smaller(a: usize, b: usize) -> usize
    ensures { result ≡ min a b }
{
    if a < b { a } else { b }
}

// Moves at most `most` bytes from the front of `left` into the front of `into`, and answers how many.
fn give(left: &[u8], most: usize, into: &mut [u8]) -> usize
    ensures moved { result ≡ min (min most (length into.old)) (length left.now) }
    ensures within { result ≤ length into.new }
    ensures front { left.now ≡ take result into.new ++ drop result left.now }
{
    let count = smaller(smaller(most, into.len()), left.len());
    into[..count].copy_from_slice(&left[..count]);
    count
}

/// A source in memory that gives at most a step's bytes a call, and fails at the calls that are listed.
#[derive(Debug, Drop)]
pub struct MemSource {
    bytes: List<u8>,
    at: usize,
    fails: List<u32>,
    step: u32,
    calls: u64,
    faults: u64,
    ghost positive: { 0 < step },
}

impl MemSource {
    /// A source that gives these bytes, at most `step` of them a call. The calls that `fails` numbers, from 0, fail.
    pub fn new(bytes: List<u8>, fails: List<u32>, step: u32) -> MemSource
        requires { 0 < step }
        ensures left { drop result.at result.bytes ≡ bytes }
        ensures fails { result.fails ≡ fails }
        ensures step { result.step ≡ step }
        ensures calls { result.calls ≡ 0 }
        ensures faults { result.faults ≡ 0 }
    {
        MemSource {
            bytes,
            at: 0,
            fails,
            step,
            calls: 0,
            faults: 0,
        }
    }
}

impl Source for MemSource {
    ghost faults = { λ source. source.faults };

    ghost left = { λ source. Some (drop source.at source.bytes) };

    fn read(&mut self, into: &mut [u8]) -> Got
        requires { 0 < length into.old }
        ensures count { Counts self.old.faults self.new.faults }
        ensures got { IsRead result into.new self.old.faults self.new.faults (Some (drop self.old.at self.old.bytes)) (Some (drop self.new.at self.new.bytes)) }
        ensures exact { result ≡ memory_read (is_listed self.old.fails self.old.calls) self.old.step (length into.old) (length (drop self.old.at self.old.bytes)) }
        ensures next { self.new.calls ≡ counted self.old.calls }
        ensures fails { self.new.fails ≡ self.old.fails }
        ensures step { self.new.step ≡ self.old.step }
    {
        let listed = lists(self.fails.as_slice(), self.calls);
        self.calls = self.calls.saturating_add(1);
        if listed {
            self.faults = self.faults.saturating_add(1);
            return Got::Failed;
        }
        if self.at >= self.bytes.len() {
            return Got::End;
        }
        let count = give(&self.bytes.as_slice()[self.at..], self.step as usize, into);
        self.at += count;
        Got::Bytes(count)
    }
}

/// A source in memory that never fails, and gives as many bytes a call as there is room for.
#[derive(Debug, Drop)]
pub struct CalmSource {
    bytes: List<u8>,
    at: usize,
}

impl CalmSource {
    /// A source that gives these bytes.
    pub fn new(bytes: List<u8>) -> CalmSource
        ensures { drop result.at result.bytes ≡ bytes }
    {
        CalmSource { bytes, at: 0 }
    }
}

impl Source for CalmSource {
    ghost faults = { λ source. 0 };

    ghost left = { λ source. Some (drop source.at source.bytes) };

    fn read(&mut self, into: &mut [u8]) -> Got
        requires { 0 < length into.old }
        ensures count { Counts 0 0 }
        ensures got { IsRead result into.new 0 0 (Some (drop self.old.at self.old.bytes)) (Some (drop self.new.at self.new.bytes)) }
        ensures exact { result ≡ memory_read false (length into.old) (length into.old) (length (drop self.old.at self.old.bytes)) }
    {
        if self.at >= self.bytes.len() {
            return Got::End;
        }
        let room = into.len();
        let count = give(&self.bytes.as_slice()[self.at..], room, into);
        self.at += count;
        Got::Bytes(count)
    }
}

/// A sink in memory that takes at most a step's bytes a call, and fails at the writes that are listed.
#[derive(Debug, Drop)]
pub struct MemSink {
    bytes: Vec<u8>,
    fails: List<u32>,
    step: u32,
    calls: u64,
    faults: u64,
    ghost positive: { 0 < step },
}

impl MemSink {
    /// A sink that holds nothing and has no room. It takes at most `step` bytes a write. The writes that `fails`
    /// numbers, from 0, fail.
    pub fn new(alloc: Global, fails: List<u32>, step: u32) -> MemSink
        requires { 0 < step }
        ensures held { result.bytes.items ≡ [] }
        ensures spare { vec_capacity result.bytes - vec_len result.bytes ≡ 0 }
        ensures fails { result.fails ≡ fails }
        ensures step { result.step ≡ step }
        ensures calls { result.calls ≡ 0 }
        ensures faults { result.faults ≡ 0 }
    {
        MemSink {
            bytes: Vec::new(alloc),
            fails,
            step,
            calls: 0,
            faults: 0,
        }
    }

    /// The bytes that the sink holds.
    pub fn bytes(&self) -> &[u8]
        ensures { result.now ≡ self.now.bytes.items }
    {
        self.bytes.as_slice()
    }
}

impl Sink for MemSink {
    ghost faults = { λ sink. sink.faults };

    ghost held = { λ sink. Some sink.bytes.items };

    ghost spare = { λ sink. vec_capacity sink.bytes - vec_len sink.bytes };

    fn reserve(&mut self, room: usize) -> Result<(), AllocError>
        ensures room { OnOk result (room ≤ vec_capacity self.new.bytes - vec_len self.new.bytes) }
        ensures refused { OnErr result (vec_capacity self.new.bytes - vec_len self.new.bytes ≡ vec_capacity self.old.bytes - vec_len self.old.bytes) }
        ensures count { self.new.faults ≡ self.old.faults }
        ensures held { Some self.new.bytes.items ≡ Some self.old.bytes.items }
        ensures calls { self.new.calls ≡ self.old.calls }
        ensures fails { self.new.fails ≡ self.old.fails }
        ensures step { self.new.step ≡ self.old.step }
    {
        self.bytes.reserve(room)
    }

    fn write(&mut self, bytes: &[u8]) -> Put
        requires some { 0 < length bytes.now }
        requires room { length bytes.now ≤ vec_capacity self.old.bytes - vec_len self.old.bytes }
        ensures count { Counts self.old.faults self.new.faults }
        ensures put { IsWritten result bytes.now self.old.faults self.new.faults (Some self.old.bytes.items) (Some self.new.bytes.items) (vec_capacity self.old.bytes - vec_len self.old.bytes) (vec_capacity self.new.bytes - vec_len self.new.bytes) }
        ensures exact { result ≡ memory_written (is_listed self.old.fails self.old.calls) self.old.step (length bytes.now) }
        ensures next { self.new.calls ≡ counted self.old.calls }
        ensures fails { self.new.fails ≡ self.old.fails }
        ensures step { self.new.step ≡ self.old.step }
    {
        let faults = self.faults;
        let listed = lists(self.fails.as_slice(), self.calls);
        self.calls = self.calls.saturating_add(1);
        if listed {
            self.faults = faults.saturating_add(1);
            return Put::Failed;
        }
        let count = smaller(self.step as usize, bytes.len());
        match self.bytes.extend_from_slice(&bytes[..count]) {
            Ok(()) => Put::Wrote(count),
            Err(_) => unreachable!(),
        }
    }
}

/// A sink in memory that never fails, and takes all that it is offered.
#[derive(Debug, Drop)]
pub struct CalmSink {
    bytes: Vec<u8>,
}

impl CalmSink {
    /// A sink that holds nothing and has no room. It takes no memory.
    pub fn new(alloc: Global) -> CalmSink
        ensures held { result.bytes.items ≡ [] }
        ensures spare { vec_capacity result.bytes - vec_len result.bytes ≡ 0 }
    {
        CalmSink {
            bytes: Vec::new(alloc),
        }
    }

    /// The bytes that the sink holds.
    pub fn bytes(&self) -> &[u8]
        ensures { result.now ≡ self.now.bytes.items }
    {
        self.bytes.as_slice()
    }
}

impl Sink for CalmSink {
    ghost faults = { λ sink. 0 };

    ghost held = { λ sink. Some sink.bytes.items };

    ghost spare = { λ sink. vec_capacity sink.bytes - vec_len sink.bytes };

    fn reserve(&mut self, room: usize) -> Result<(), AllocError> {
        self.bytes.reserve(room)
    }

    fn write(&mut self, bytes: &[u8]) -> Put
        requires some { 0 < length bytes.now }
        requires room { length bytes.now ≤ vec_capacity self.old.bytes - vec_len self.old.bytes }
        ensures count { Counts 0 0 }
        ensures put { IsWritten result bytes.now 0 0 (Some self.old.bytes.items) (Some self.new.bytes.items) (vec_capacity self.old.bytes - vec_len self.old.bytes) (vec_capacity self.new.bytes - vec_len self.new.bytes) }
        ensures exact { result ≡ Put.Wrote (length bytes.now) }
    {
        match self.bytes.extend_from_slice(bytes) {
            Ok(()) => Put::Wrote(bytes.len()),
            Err(_) => unreachable!(),
        }
    }
}
