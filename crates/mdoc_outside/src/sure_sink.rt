// A sink in memory that never fails.
ghost use Rattle.std.specs.Prelude.{◌≡◌, [], IfOk};
ghost use Rattle.mdoc_outside.specs.Sink.{bytes_put};

use crate::sink_log::SinkLog;
use crate::{Memory, Octets, Sink, SinkCall, SinkFault};
use std::alloc::Global;

/// Bytes in memory. No call fails but for want of memory. It tells its calls.
#[derive(Drop)]
pub struct SureSink {
    log: SinkLog,
}

impl SureSink {
    ghost use Rattle.mdoc_outside.specs.SureSink.{told};

    /// A sink that has taken nothing yet.
    pub fn new(alloc: Global) -> SureSink
        ensures { told result ≡ [] }
    {
        SureSink {
            log: SinkLog::new(alloc),
        }
    }

    /// The calls that did their work, in order.
    pub fn calls(&self) -> &[SinkCall]
        ensures { result.now ≡ told self.now }
    {
        self.log.calls()
    }

    /// The bytes that it has taken: those of its puts, joined.
    pub fn bytes(&self) -> Result<Octets, Memory>
        ensures { IfOk result (λ bytes. bytes ≡ bytes_put (told self.now)) }
    {
        self.log.bytes()
    }
}

impl Sink for SureSink {
    ghost use Rattle.mdoc_outside.specs.SureSink.{sink_state};

    ghost state = { λ s. sink_state s };

    fn put(&mut self, bytes: &[u8]) -> Result<(), SinkFault> {
        Ok(self.log.put(bytes)?)
    }
}
