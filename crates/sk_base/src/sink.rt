ghost use Rattle.std.specs.Prelude.{ℕ, List, Option, ◌<◌, ◌≤◌, ◌≡◌, length, OnOk, OnErr};
ghost use Rattle.sk_base.specs.Stream.{Counts, IsWritten};

use std::alloc::AllocError;

/// What a write did.
#[derive(Debug, Clone, Copy, PartialEq, Eq)]
pub enum Put {
    /// So many bytes were taken, from the front of those offered.
    Wrote(usize),
    /// The sink failed, and took nothing.
    Failed,
}

/// Where bytes go.
pub trait Sink {
    /// How often it has failed: a number from 0 to 2^64 - 1, which never falls.
    ghost faults: { Self → ℕ };

    /// The bytes that it holds, in order, where the sink tells this.
    ghost held: { Self → Option (List ℕ) };

    /// For how many bytes there is room.
    ghost spare: { Self → ℕ };

    /// Makes room for `room` bytes. Where it is refused, the room is as before.
    fn reserve(&mut self, room: usize) -> Result<(), AllocError>
        ensures room { OnOk result (room ≤ spare self.new) }
        ensures refused { OnErr result (spare self.new ≡ spare self.old) }
        ensures count { faults self.new ≡ faults self.old }
        ensures held { held self.new ≡ held self.old };

    /// Appends bytes from the front of `bytes`, at least one, as many as the sink likes.
    fn write(&mut self, bytes: &[u8]) -> Put
        requires some { 0 < length bytes.now }
        requires room { length bytes.now ≤ spare self.old }
        ensures count { Counts (faults self.old) (faults self.new) }
        ensures put { IsWritten result bytes.now (faults self.old) (faults self.new) (held self.old) (held self.new) (spare self.old) (spare self.new) };
}
