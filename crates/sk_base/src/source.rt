ghost use Rattle.std.specs.Prelude.{ℕ, List, Option, ◌<◌, length};
ghost use Rattle.sk_base.specs.Stream.{Counts, IsRead};

/// What a read gave.
#[derive(Debug, Clone, Copy, PartialEq, Eq)]
pub enum Got {
    /// So many bytes, at the front of the buffer. None at all is read as `End`.
    Bytes(usize),
    /// There are no more bytes.
    End,
    /// The source failed, and gave nothing.
    Failed,
}

/// Where bytes come from.
pub trait Source {
    /// How often it has failed: a number from 0 to 2^64 - 1, which never falls.
    ghost faults: { Self → ℕ };

    /// The bytes that are left, in order, where the source tells this.
    ghost left: { Self → Option (List ℕ) };

    /// Reads the next bytes into the front of `into`, as many as the source likes.
    fn read(&mut self, into: &mut [u8]) -> Got
        requires { 0 < length into.old }
        ensures count { Counts (faults self.old) (faults self.new) }
        ensures got { IsRead result into.new (faults self.old) (faults self.new) (left self.old) (left self.new) };
}
