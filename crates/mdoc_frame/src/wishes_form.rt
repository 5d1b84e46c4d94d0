// Wishes files.
use crate::form::Form;
use crate::{FileFault, FormCheck, Role, Status, read_wishes};
use doc_request::RequestDraft;
use mdoc_outside::Octets;
use std::alloc::Global;

impl Form for RequestDraft {
    ghost use Rattle.mdoc_frame.specs.declared.role.Role.TheVariants as roles;
    ghost use Rattle.mdoc_frame.specs.Content.{OfWishes};

    ghost role = { roles.Wishes };

    ghost content = { λ r. OfWishes r.documents };

    fn file_role() -> Role {
        Role::Wishes
    }

    fn from_bytes(alloc: Global, text: Octets) -> Result<Self, Status> {
        match read_wishes(alloc, text.as_slice()) {
            Ok(request) => Ok(request),
            Err(FileFault::Line(number)) => {
                Err(Status::Form(Role::Wishes, FormCheck::Line, number))
            }
            Err(FileFault::Limit(name, number)) => Err(Status::Limit(name, number)),
            Err(FileFault::Memory) => Err(Status::Memory),
        }
    }
}
