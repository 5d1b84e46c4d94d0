// A sink of bytes.
ghost use Rattle.std.specs.Prelude.{List};
ghost use Rattle.mdoc_outside.specs.Sink.{Puts};
ghost use Rattle.mdoc_outside.specs.State.{State};
ghost use Rattle.mdoc_outside.specs.declared.sink_call.SinkCall.{SinkCall};

use crate::SinkFault;

/// A place that takes bytes, one piece after the other.
pub trait Sink {
    /// Its puts, where it tells, and how often it has failed, a number that never falls.
    ghost state: { Self → State (List SinkCall) };

    /// Adds the bytes after those that it has taken.
    fn put(&mut self, bytes: &[u8]) -> Result<(), SinkFault>
        ensures { Puts (state self.old) (state self.new) bytes.now result };
}
