// A cabinet of files, by name.
ghost use Rattle.mdoc_outside.specs.Cabinet.{CabinetTold, Reads, Writes};
ghost use Rattle.mdoc_outside.specs.State.{State};

use crate::{CabinetFault, Octets};

/// Files by name.
pub trait Cabinet {
    /// Its files and its calls, where it tells, and how often it has failed, a number that never falls.
    ghost state: { Self → State CabinetTold };

    /// The bytes of the file of that name, `None` where there is no such file.
    fn read(&mut self, name: &str) -> Result<Option<Octets>, CabinetFault>
        ensures { Reads (state self.old) (state self.new) name.now result };

    /// Holds the bytes under that name from now on, in place of what was there.
    fn write(&mut self, name: &str, bytes: &[u8]) -> Result<(), CabinetFault>
        ensures { Writes (state self.old) (state self.new) name.now bytes.now result };
}
