// A cabinet in memory that never fails.
ghost use Rattle.std.specs.Prelude.{◌≡◌, []};

use crate::cabinet_log::CabinetLog;
use crate::{Cabinet, CabinetCall, CabinetFault, Octets};
use std::alloc::Global;

/// Files in memory. No call fails but for want of memory. It tells its files and its calls.
#[derive(Drop)]
pub struct SureCabinet {
    log: CabinetLog,
}

impl SureCabinet {
    ghost use Rattle.mdoc_outside.specs.SureCabinet.{told};

    /// A cabinet of files, each a name and its bytes.
    pub fn new(alloc: Global, files: Vec<(Octets, Octets)>) -> SureCabinet
        ensures { told result ≡ record { files = files.items; calls = [] } }
    {
        SureCabinet {
            log: CabinetLog::new(alloc, files),
        }
    }

    /// The calls that did their work, in order.
    pub fn calls(&self) -> &[CabinetCall]
        ensures { result.now ≡ (told self.now).calls }
    {
        self.log.calls()
    }
}

impl Cabinet for SureCabinet {
    ghost use Rattle.mdoc_outside.specs.SureCabinet.{cabinet_state};

    ghost state = { λ c. cabinet_state c };

    fn read(&mut self, name: &str) -> Result<Option<Octets>, CabinetFault> {
        Ok(self.log.read(name)?)
    }

    fn write(&mut self, name: &str, bytes: &[u8]) -> Result<(), CabinetFault> {
        Ok(self.log.write(name, bytes)?)
    }
}
