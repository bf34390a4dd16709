//! One call of a writer.

ghost use Rattle.std.specs.Prelude.{ℕ, List, Option};
ghost use Rattle.sk_app_streams.specs.Calls.{count_of, IsWriteOf};
ghost use Rattle.std.specs.Io.{WritesAtMost};
ghost use Rattle.std.specs.Io.KnownBytes.{WriteAppends};

use std::io::{self, Write};

/// A writer whose calls a clause can name. What a call does is left open: so what is proved of every such writer by `one_write` holds only of
/// code that calls it once.
pub trait WriteOnce {
    /// The bytes that the writer holds, where they are known.
    ghost contents: { Self → Option (List ℕ) };

    /// What one call does: the writer before it, the bytes offered, the writer after it, and how many bytes it
    /// took, or none where it failed.
    ghost one_write: { Self → List ℕ → Self → Option ℕ → Type 0 };

    /// Calls the writer once.
    fn write_once(&mut self, bytes: &[u8]) -> io::Result<usize>
        ensures bound { WritesAtMost result bytes.now }
        ensures bytes { WriteAppends (contents self.old) (contents self.new) result bytes.now }
        ensures one { one_write self.old bytes.now self.new (count_of result) };
}

impl<W: Write> WriteOnce for W {
    ghost contents = { λ writer. W.contents writer };

    ghost one_write = { λ old offered new given. IsWriteOf given offered (W.contents old) (W.contents new) };

    fn write_once(&mut self, bytes: &[u8]) -> io::Result<usize> {
        self.write(bytes)
    }
}
