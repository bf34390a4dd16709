//! One call of a reader.

ghost use Rattle.std.specs.Prelude.{ℕ, List, Option};
ghost use Rattle.sk_app_streams.specs.Calls.{count_of, IsReadOf};
ghost use Rattle.std.specs.Io.{ReadsAtMost};
ghost use Rattle.std.specs.Io.KnownBytes.{ReadConsumes};

use std::io::{self, Read};

/// A reader whose calls a clause can name. What a call does is left open: so what is proved of every such reader by `one_read` holds only of code
/// that calls it once.
pub trait ReadOnce {
    /// The bytes that are left, where they are known.
    ghost remaining: { Self → Option (List ℕ) };

    /// What one call does: the reader and the buffer before it, those after it, and how many bytes it
    /// gave, or none where it failed.
    ghost one_read: { Self → List ℕ → Self → List ℕ → Option ℕ → Type 0 };

    /// Calls the reader once.
    fn read_once(&mut self, into: &mut [u8]) -> io::Result<usize>
        ensures bound { ReadsAtMost result into.new }
        ensures bytes { ReadConsumes (remaining self.old) (remaining self.new) result into.new }
        ensures one { one_read self.old into.old self.new into.new (count_of result) };
}

impl<R: Read> ReadOnce for R {
    ghost remaining = { λ reader. R.remaining reader };

    ghost one_read = { λ old from new into given. IsReadOf given into (R.remaining old) (R.remaining new) };

    fn read_once(&mut self, into: &mut [u8]) -> io::Result<usize> {
        self.read(into)
    }
}
