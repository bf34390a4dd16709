//! A reader as a source.

ghost use Rattle.std.specs.Prelude.{ℕ, List, Option, None, ◌≡◌, ◌<◌, length, take, true, false};
ghost use Rattle.std.proofs.Props.{props};
ghost use Rattle.std.specs.Io.KnownBytes.{Keeps, Consumes};
ghost use Rattle.sk_base.specs.Stream.{Counts, IsRead, NothingLeft};
ghost use Rattle.sk_app_streams.specs.Calls.{IsOneRead};

use crate::read_once::ReadOnce;
use sk_base::{Got, Source};

/// A reader as a source, such as standard input. It counts the reads that fail, and reads nothing behind the end.
#[derive(Drop)]
pub struct StdSource<R: ReadOnce> {
    reader: R,
    faults: u64,
    /// Whether a read has met the end.
    ended: bool,
    // Behind the end nothing is left, where the reader tells this.
    ghost at_end: { ended ≡ true → NothingLeft (R.remaining reader) } by { Prim.hlevel props },
}

impl<R: ReadOnce> StdSource<R> {
    /// A source of what the reader reads, which has neither failed nor ended yet.
    pub fn new(reader: R) -> StdSource<R>
        ensures reader { result.reader ≡ reader }
        ensures faults { result.faults ≡ 0 }
        ensures ended { result.ended ≡ false }
    {
        StdSource {
            reader,
            faults: 0,
            ended: false,
        }
    }
}

impl<R: ReadOnce> Source for StdSource<R> {
    ghost faults = { λ source. source.faults };

    ghost left = { λ source. None };

    #[tactic(auto, using(crate::proofs::Ends::at_end))]
    /// Calls the reader once, and answers what that call gave: `End` where it gave no bytes, and `Failed` where it failed. Where the end was met
    /// before, the reader is not called again.
    fn read(&mut self, into: &mut [u8]) -> Got
        requires { 0 < length into.old }
        ensures count { Counts self.old.faults self.new.faults }
        ensures got { IsRead result into.new self.old.faults self.new.faults None None }
        ensures once { self.old.ended ≡ false → IsOneRead (R.one_read self.old.reader into.old self.new.reader into.new) result self.old.faults self.new.faults }
        ensures ended { self.old.ended ≡ true → result ≡ Got.End }
        ensures untouched { self.old.ended ≡ true → self.new ≡ self.old }
        ensures stops { result ≡ Got.End → self.new.ended ≡ true }
        ensures goes { self.new.ended ≡ true → result ≡ Got.End }
        ensures end { result ≡ Got.End → NothingLeft (R.remaining self.new.reader) }
        ensures bytes { (n : ℕ) → result ≡ Got.Bytes n → Consumes (R.remaining self.old.reader) (R.remaining self.new.reader) (take n into.new) }
        ensures none { (n : ℕ) → result ≡ Got.Bytes n → 0 < n }
        ensures failed { result ≡ Got.Failed → Keeps (R.remaining self.old.reader) (R.remaining self.new.reader) }
    {
        let faults = self.faults;
        if self.ended {
            return Got::End;
        }
        match self.reader.read_once(into) {
            Ok(0) => {
                self.ended = true;
                Got::End
            }
            Ok(count) => Got::Bytes(count),
            Err(_) => {
                self.faults = faults.saturating_add(1);
                Got::Failed
            }
        }
    }
}
