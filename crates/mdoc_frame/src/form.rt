// Files by their form.
ghost use Rattle.std.specs.Prelude.{◌≡◌};
ghost use Rattle.mdoc_frame.specs.Content.{Content};
ghost use Rattle.mdoc_frame.specs.Outcome.{file_name_or_none, needed_file_name};
ghost use Rattle.mdoc_frame.specs.Steps.{ReadsFile, ReadsForm};
ghost use Rattle.mdoc_frame.specs.declared.role.Role.{Role};

use crate::{Role, Status};
use mdoc_outside::{Cabinet, CabinetFault, LimitName, MOST_FILE_BYTES, Octets};
use std::alloc::Global;

/// What a file of a role gives.
pub trait Form: Sized {
    // What it is for.
    ghost role: { Role };

    // What contracts see of it.
    ghost content: { Self → Content };

    /// What it is for.
    fn file_role() -> Role
        ensures { result ≡ role };

    /// What bytes spell, else the status that tells their first fault.
    fn from_bytes(alloc: Global, bytes: Octets) -> Result<Self, Status>
        ensures { ReadsForm role content bytes result };
}

/// Reads the file of a name: it is there, is not too long, and is in its form.
pub fn read_file<F: Form, C: Cabinet>(
    alloc: Global,
    name: &str,
    cabinet: &mut C,
) -> Result<F, Status>
    ensures { ReadsFile (needed_file_name F.role name.now) F.content
        (C.state cabinet.old) (C.state cabinet.new) result }
{
    let bytes = match cabinet.read(name) {
        Ok(Some(bytes)) => bytes,
        Ok(None) => return Err(Status::Missing(F::file_role())),
        Err(CabinetFault::Failed) => return Err(Status::Cabinet),
        Err(CabinetFault::Memory) => return Err(Status::Memory),
    };
    let length = bytes.as_slice().len();
    if length > MOST_FILE_BYTES {
        return Err(Status::Limit(LimitName::FileBytes, length as u64));
    }
    F::from_bytes(alloc, bytes)
}
