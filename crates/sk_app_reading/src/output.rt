//! A text, written to a sink.

ghost use Rattle.std.specs.Prelude.{◌≡◌, ◌≤◌, ◌+◌, ◌++◌, length, take, true, false};
ghost use Rattle.sk_base.specs.Stream.{Rose};
ghost use Rattle.sk_app_reading.specs.Streams.{Appends, AppendsPrefix, IsDelivered};

use sk_base::{Put, Sink};

/// What became of a text that was to be written.
#[derive(Debug, Drop, Clone, Copy)]
pub enum Delivery {
    /// All of it was written.
    Written,
    /// The sink failed behind a prefix of it.
    Cut,
    /// The sink had no room for it, and nothing was written.
    NoRoom,
}

/// The bytes after so many.
fn after(bytes: &[u8], count: usize) -> &[u8]
    requires { count ≤ length bytes.now }
    ensures split { bytes.now ≡ take count bytes.now ++ result.now }
    ensures shorter { length bytes.now ≡ count + length result.now }
{
    &bytes[count..]
}

/// Writes all these bytes. Each write offers all that is left. It answers whether no write failed.
#[tactic(auto, using(crate::proofs::StreamLemmas::writes_more))]
fn write_all<K: Sink>(sink: &mut K, bytes: &[u8]) -> bool
    requires { length bytes.now ≤ K.spare sink.old }
    ensures count { K.faults sink.old ≤ K.faults sink.new }
    ensures all { result ≡ true → Appends bytes.now (K.held sink.old) (K.held sink.new) }
    ensures fault { result ≡ false → Rose (K.faults sink.old) (K.faults sink.new) }
    ensures prefix { result ≡ false → AppendsPrefix bytes.now (K.held sink.old) (K.held sink.new) }
{
    let mut rest = bytes;
    'writing: while !rest.is_empty() {
        match sink.write(rest) {
            Put::Wrote(count) => rest = after(rest, count),
            Put::Failed => return false,
        }
    }
    true
}

/// Writes a text, made whole before. It takes no memory after the sink has made room for it.
pub fn deliver<K: Sink>(sink: &mut K, out: &[u8]) -> Delivery
    ensures { IsDelivered result out.now (K.faults sink.old) (K.faults sink.new) (K.held sink.old) (K.held sink.new) }
{
    if sink.reserve(out.len()).is_err() {
        return Delivery::NoRoom;
    }
    if write_all(sink, out) {
        Delivery::Written
    } else {
        Delivery::Cut
    }
}
