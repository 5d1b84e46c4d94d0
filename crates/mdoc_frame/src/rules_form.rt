// Rules files.
use crate::form::Form;
use crate::{FormCheck, Role, Status};
use consent::{RuleFault, Rules};
use mdoc_outside::Octets;
use std::alloc::Global;

impl Form for Rules {
    ghost use Rattle.mdoc_frame.specs.declared.role.Role.TheVariants as roles;
    ghost use Rattle.mdoc_frame.specs.Content.{OfRules};

    ghost role = { roles.Rules };

    ghost content = { λ r. OfRules r };

    fn file_role() -> Role {
        Role::Rules
    }

    fn from_bytes(alloc: Global, text: Octets) -> Result<Self, Status> {
        match Rules::read(alloc, text.as_slice()) {
            Ok(rules) => Ok(rules),
            Err(RuleFault::Line(number)) => Err(Status::Form(Role::Rules, FormCheck::Line, number)),
            Err(RuleFault::Memory) => Err(Status::Memory),
        }
    }
}
