// A cabinet of the files of the system.
ghost use Rattle.std.specs.Prelude.{◌≡◌, ◌≤◌, None};
ghost use Rattle.mdoc_outside.specs.Faults.{Rose};
ghost use Rattle.mdoc_outside.specs.declared.cabinet_fault.CabinetFault.TheVariants.{Failed, Memory};

use crate::{Cabinet, CabinetFault, Octets};
use std::fs;
use std::io::{self, ErrorKind, Read};
use std::rt::Files;

// The most bytes of a file that is read.
const MOST_BYTES: u64 = 1_073_741_824;

/// The files of the system, whose names are paths. It doesn't tell what it holds. A read fails at
/// a file of more than 1,073,741,824 bytes.
#[derive(Drop)]
pub struct FolderCabinet<R: Files + AllocGlobal + Drop> {
    rt: R,
    faults: u64,
}

impl<R: Files + AllocGlobal + Drop> FolderCabinet<R> {
    /// The files that the runtime reaches.
    pub fn new(rt: R) -> FolderCabinet<R> {
        FolderCabinet { rt, faults: 0 }
    }

    // Counts a fault of the system; want of memory isn't one.
    fn counted(&mut self, fault: &io::Error) -> CabinetFault
        ensures failed { result ≡ Failed → Rose self.old.faults self.new.faults }
        ensures memory { result ≡ Memory → self.new.faults ≡ self.old.faults }
        ensures later { self.old.faults ≤ self.new.faults }
    {
        if fault.kind() == ErrorKind::OutOfMemory {
            return CabinetFault::Memory;
        }
        self.faults = self.faults.saturating_add(1);
        CabinetFault::Failed
    }
}

// The bytes of the file at that path, `None` where there is none.
fn bytes_at<R: Files + AllocGlobal>(rt: &R, path: &str) -> io::Result<Option<Vec<u8>>> {
    let file = match fs::open(rt, path) {
        Ok(file) => file,
        Err(fault) if fault.kind() == ErrorKind::NotFound => return Ok(None),
        Err(fault) => return Err(fault),
    };
    let mut bytes = Vec::new(rt.alloc());
    file.take(MOST_BYTES + 1).read_to_end(&mut bytes)?;
    if bytes.len() as u64 > MOST_BYTES {
        return Err(io::Error::from(ErrorKind::FileTooLarge));
    }
    Ok(Some(bytes))
}

impl<R: Files + AllocGlobal + Drop> Cabinet for FolderCabinet<R> {
    ghost state = { λ c. record { told = None; faults = c.faults } };

    fn read(&mut self, name: &str) -> Result<Option<Octets>, CabinetFault> {
        match bytes_at(&self.rt, name) {
            Ok(Some(bytes)) => Ok(Some(Octets::from_vec(bytes))),
            Ok(None) => Ok(None),
            Err(fault) => Err(self.counted(&fault)),
        }
    }

    fn write(&mut self, name: &str, bytes: &[u8]) -> Result<(), CabinetFault> {
        match fs::write(&self.rt, name, bytes) {
            Ok(()) => Ok(()),
            Err(fault) => Err(self.counted(&fault)),
        }
    }
}
