// A sink in memory, some of whose calls fail.
ghost use Rattle.std.specs.Prelude.{◌≡◌, [], IfOk};
ghost use Rattle.mdoc_outside.specs.Sink.{bytes_put};

use crate::call_plan::CallPlan;
use crate::sink_log::SinkLog;
use crate::{Octets, Sink, SinkCall, SinkFault};
use std::alloc::Global;

/// Bytes in memory. The calls with the given numbers, from 0, fail. It tells its calls.
#[derive(Drop)]
pub struct MemorySink {
    log: SinkLog,
    plan: CallPlan,
}

impl MemorySink {
    ghost use Rattle.mdoc_outside.specs.MemorySink.{told, failing_calls, next_call, fault_number};

    /// A sink that has taken nothing yet, and the numbers of the calls that fail.
    pub fn new(alloc: Global, fails: Vec<u64>) -> MemorySink
        ensures told { told result ≡ [] }
        ensures failing { failing_calls result ≡ fails.items }
        ensures next { next_call result ≡ 0 }
        ensures faults { fault_number result ≡ 0 }
    {
        MemorySink {
            log: SinkLog::new(alloc),
            plan: CallPlan::new(fails),
        }
    }

    /// The calls that did their work or failed, in order.
    pub fn calls(&self) -> &[SinkCall]
        ensures { result.now ≡ told self.now }
    {
        self.log.calls()
    }

    /// The bytes that it has taken: those of its puts, joined.
    pub fn bytes(&self) -> Result<Octets, crate::Memory>
        ensures { IfOk result (λ bytes. bytes ≡ bytes_put (told self.now)) }
    {
        self.log.bytes()
    }
}

impl Sink for MemorySink {
    ghost use Rattle.mdoc_outside.specs.CallPlan.{GoesAsPlanned};
    ghost use Rattle.mdoc_outside.specs.Faults.{CountsOne};
    ghost use Rattle.mdoc_outside.specs.MemorySink.{sink_state, failing_calls, next_call};
    ghost use Rattle.mdoc_outside.specs.Sink.{Puts};
    ghost use Rattle.mdoc_outside.specs.declared.sink_fault.SinkFault.TheVariants.{Failed, Memory};

    ghost state = { λ s. sink_state s };

    // The trait's clause, and that the calls of the plan fail and no others.
    fn put(&mut self, bytes: &[u8]) -> Result<(), SinkFault>
        ensures put { Puts (sink_state self.old) (sink_state self.new) bytes.now result }
        ensures planned { GoesAsPlanned Failed Memory
            (failing_calls self.old) (next_call self.old) (next_call self.new) result }
        ensures counts { CountsOne Failed (sink_state self.old).faults (sink_state self.new).faults result }
        ensures failing { failing_calls self.new ≡ failing_calls self.old }
    {
        if self.plan.is_next_failing() {
            self.log.fail_put(bytes)?;
            self.plan.count(true);
            return Err(SinkFault::Failed);
        }
        self.log.put(bytes)?;
        self.plan.count(false);
        Ok(())
    }
}
