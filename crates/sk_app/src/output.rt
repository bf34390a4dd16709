//! The result text, written to a sink.

ghost use Rattle.sk_app_reading.specs.Streams.{Appends, AppendsPrefix};
ghost use Rattle.sk_app.specs.Ends.{IsDelivered};

use crate::ending::Ending;
use sk_app_reading::{Delivery, deliver as written};
use sk_base::Sink;

/// Writes a result text, made whole before. It answers `done` where it was written, and takes no memory
/// after the sink has made room for it.
pub fn deliver<K: Sink>(sink: &mut K, out: &[u8], done: Ending) -> Ending
    ensures { IsDelivered result done out.now (K.faults sink.old) (K.faults sink.new) (K.held sink.old) (K.held sink.new) }
{
    match written(sink, out) {
        Delivery::Written => done,
        Delivery::Cut => Ending::WriteFault,
        Delivery::NoRoom => Ending::Memory,
    }
}
