// A cabinet in memory, some of whose calls fail.
ghost use Rattle.std.specs.Prelude.{◌≡◌, []};

use crate::cabinet_log::CabinetLog;
use crate::call_plan::CallPlan;
use crate::{Cabinet, CabinetCall, CabinetFault, Octets};
use std::alloc::Global;

/// Files in memory. The calls with the given numbers, from 0, fail. It tells its files and its calls.
#[derive(Drop)]
pub struct MemoryCabinet {
    log: CabinetLog,
    plan: CallPlan,
}

impl MemoryCabinet {
    ghost use Rattle.mdoc_outside.specs.MemoryCabinet.{told, failing_calls, next_call, fault_number};

    /// A cabinet of files, each a name and its bytes, and the numbers of the calls that fail.
    pub fn new(alloc: Global, files: Vec<(Octets, Octets)>, fails: Vec<u64>) -> MemoryCabinet
        ensures told { told result ≡ record { files = files.items; calls = [] } }
        ensures failing { failing_calls result ≡ fails.items }
        ensures next { next_call result ≡ 0 }
        ensures faults { fault_number result ≡ 0 }
    {
        MemoryCabinet {
            log: CabinetLog::new(alloc, files),
            plan: CallPlan::new(fails),
        }
    }

    /// The calls that did their work or failed, in order.
    pub fn calls(&self) -> &[CabinetCall]
        ensures { result.now ≡ (told self.now).calls }
    {
        self.log.calls()
    }
}

impl Cabinet for MemoryCabinet {
    ghost use Rattle.mdoc_outside.specs.Cabinet.{Reads, Writes};
    ghost use Rattle.mdoc_outside.specs.CallPlan.{GoesAsPlanned};
    ghost use Rattle.mdoc_outside.specs.Faults.{CountsOne};
    ghost use Rattle.mdoc_outside.specs.MemoryCabinet.{cabinet_state, failing_calls, next_call};
    ghost use Rattle.mdoc_outside.specs.declared.cabinet_fault.CabinetFault.TheVariants.{Failed, Memory};

    ghost state = { λ c. cabinet_state c };

    // The trait's clause, and that the calls of the plan fail and no others.
    fn read(&mut self, name: &str) -> Result<Option<Octets>, CabinetFault>
        ensures read { Reads (cabinet_state self.old) (cabinet_state self.new) name.now result }
        ensures planned { GoesAsPlanned Failed Memory
            (failing_calls self.old) (next_call self.old) (next_call self.new) result }
        ensures counts { CountsOne Failed (cabinet_state self.old).faults (cabinet_state self.new).faults result }
        ensures failing { failing_calls self.new ≡ failing_calls self.old }
    {
        if self.plan.is_next_failing() {
            self.log.fail_read(name)?;
            self.plan.count(true);
            return Err(CabinetFault::Failed);
        }
        let found = self.log.read(name)?;
        self.plan.count(false);
        Ok(found)
    }

    // The same of a write.
    fn write(&mut self, name: &str, bytes: &[u8]) -> Result<(), CabinetFault>
        ensures written { Writes (cabinet_state self.old) (cabinet_state self.new)
            name.now bytes.now result }
        ensures planned { GoesAsPlanned Failed Memory
            (failing_calls self.old) (next_call self.old) (next_call self.new) result }
        ensures counts { CountsOne Failed (cabinet_state self.old).faults (cabinet_state self.new).faults result }
        ensures failing { failing_calls self.new ≡ failing_calls self.old }
    {
        if self.plan.is_next_failing() {
            self.log.fail_write(name, bytes)?;
            self.plan.count(true);
            return Err(CabinetFault::Failed);
        }
        self.log.write(name, bytes)?;
        self.plan.count(false);
        Ok(())
    }
}
