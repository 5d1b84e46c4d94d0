// Spec files.
ghost use Rattle.std.specs.Prelude.{◌≡◌};
ghost use Rattle.mdoc_frame.specs.Content.{spec_status};

use crate::form::Form;
use crate::{FormCheck, Role, Status};
use issue_spec::{Spec, SpecCheck, SpecFault};
use mdoc_outside::Octets;
use std::alloc::Global;

// The status of a spec file by the check that fails at a line.
fn status_of(check: SpecCheck, number: u64) -> Status
    ensures { result ≡ spec_status number check }
{
    match check {
        SpecCheck::Limit(limit, passed) => Status::Limit(limit, passed),
        check => Status::Form(Role::Spec, FormCheck::Spec(check), number),
    }
}

impl Form for Spec {
    ghost use Rattle.issue_spec.specs.Spec.{fields};
    ghost use Rattle.mdoc_frame.specs.Content.{OfSpec};
    ghost use Rattle.mdoc_frame.specs.declared.role.Role.TheVariants as roles;

    ghost role = { roles.Spec };

    ghost content = { λ s. OfSpec (fields s) };

    fn file_role() -> Role {
        Role::Spec
    }

    fn from_bytes(alloc: Global, text: Octets) -> Result<Self, Status> {
        match Spec::read(alloc, text.as_slice()) {
            Ok(spec) => Ok(spec),
            Err(SpecFault::Form(check, number)) => Err(status_of(check, number)),
            Err(SpecFault::Memory) => Err(Status::Memory),
        }
    }
}
