// Store files.
ghost use Rattle.std.specs.Prelude.{◌≡◌};
ghost use Rattle.mdoc_frame.specs.Content.{fault_status};

use crate::form::Form;
use crate::{FormCheck, Role, Status};
use doc_store::{Fault, StoreCheck, StoreFault, StoreFile};
use mdoc_outside::Octets;
use std::alloc::Global;

// The status of a store or a package by its first fault.
pub(crate) fn status_of(role: Role, fault: Fault) -> Status
    ensures { result ≡ fault_status role fault }
{
    match fault.check {
        StoreCheck::Limit(name, number) => Status::Limit(name, number),
        check => Status::Form(role, FormCheck::Store(check), fault.at as u64),
    }
}

impl Form for StoreFile {
    ghost use Rattle.doc_store.specs.StoreView.{bytes_of_file};
    ghost use Rattle.mdoc_frame.specs.Content.{OfStore, store_file};
    ghost use Rattle.mdoc_frame.specs.declared.role.Role.TheVariants as roles;

    ghost role = { roles.Store };

    ghost content = { λ s. OfStore (store_file (bytes_of_file s)) };

    fn file_role() -> Role {
        Role::Store
    }

    fn from_bytes(alloc: Global, bytes: Octets) -> Result<Self, Status> {
        match StoreFile::read(alloc, bytes) {
            Ok(file) => Ok(file),
            Err(StoreFault::Form(fault)) => Err(status_of(Role::Store, fault)),
            Err(StoreFault::Memory) => Err(Status::Memory),
        }
    }
}
