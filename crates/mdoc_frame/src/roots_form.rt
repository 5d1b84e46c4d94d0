// Roots files.
use crate::form::Form;
use crate::{FormCheck, Role, Status};
use cert_view::{Roots, RootsFault};
use mdoc_outside::{LimitName, Octets};
use std::alloc::Global;

impl Form for Roots {
    ghost use Rattle.mdoc_frame.specs.Content.{OfRoots};
    ghost use Rattle.mdoc_frame.specs.declared.role.Role.TheVariants as roles;

    ghost role = { roles.Roots };

    ghost content = { λ r. OfRoots r };

    fn file_role() -> Role {
        Role::Roots
    }

    #[tactic(auto, using(crate::proofs::RootLemmas::roots_read))]
    fn from_bytes(alloc: Global, text: Octets) -> Result<Self, Status> {
        match Roots::read(alloc, text.as_slice()) {
            Ok(roots) => Ok(roots),
            Err(RootsFault::Line(number)) => {
                Err(Status::Form(Role::Roots, FormCheck::Line, number))
            }
            Err(RootsFault::TooMany(number)) => Err(Status::Limit(LimitName::Roots, number)),
            Err(RootsFault::Memory) => Err(Status::Memory),
        }
    }
}
