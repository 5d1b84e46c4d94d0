// Packages.
use crate::form::Form;
use crate::store_form::status_of;
use crate::{Role, Status};
use doc_store::{StoreFault, StoreFile};
use mdoc_outside::Octets;
use std::alloc::Global;

/// A package, which is a store file.
#[derive(Drop)]
pub struct PackageFile {
    /// The store file.
    pub file: StoreFile,
}

impl Form for PackageFile {
    ghost use Rattle.doc_store.specs.StoreView.{bytes_of_file};
    ghost use Rattle.mdoc_frame.specs.Content.{OfPackage, store_file};
    ghost use Rattle.mdoc_frame.specs.declared.role.Role.TheVariants as roles;

    ghost role = { roles.Package };

    ghost content = { λ p. OfPackage (store_file (bytes_of_file p.file)) };

    fn file_role() -> Role {
        Role::Package
    }

    fn from_bytes(alloc: Global, bytes: Octets) -> Result<Self, Status> {
        match StoreFile::read(alloc, bytes) {
            Ok(file) => Ok(PackageFile { file }),
            Err(StoreFault::Form(fault)) => Err(status_of(Role::Package, fault)),
            Err(StoreFault::Memory) => Err(Status::Memory),
        }
    }
}
