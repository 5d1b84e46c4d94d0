//! The security object of a copy.

ghost use Rattle.std.specs.Prelude.{◌≡◌, length, IfOk, Ok};
ghost use Rattle.issue_spec.specs.Spec.{fields};
ghost use Rattle.issuing.specs.IssuedItems.{payload};
ghost use Rattle.mso_digests.specs.Object.{object};
ghost use Rattle.mso_digests.specs.Written.{drafted};
ghost use Rattle.issuing.specs.IssuedItems.{object_draft};

use crate::digests::item_digests;
use issue_spec::Spec;
use key_device::Point;
use mdoc_outside::{Memory, Octets};
use mso_digests::{MsoDraft, write_mso};
use std::alloc::Global;

/// The document type of a spec, as text.
#[tactic(auto, using(issue_spec::proofs::SpecForms::name_is_text))]
pub fn document_type(spec: &Spec) -> &str
    ensures { result.now ≡ (fields spec.now).doc_type }
{
    match str::from_utf8(spec.doc_type()) {
        Ok(doc_type) => doc_type,
        Err(_) => unreachable!(),
    }
}

/// The security object of the copy with these salts (MobileSecurityObjectBytes; ISO/IEC 18013-5, 9.1.2.4): the digests
/// of its items and its own device key, with the type and the moments of its spec.
#[tactic(auto, using(crate::proofs::ObjectLemmas::update_is))]
pub fn write_object(
    alloc: Global,
    spec: &Spec,
    key: &Point,
    salts: &[[u8; 32]],
) -> Result<Octets, Memory>
    requires { length salts.now ≡ length (fields spec.now).elements }
    ensures written { IfOk result (λ b. b ≡ payload (fields spec.now) key.now salts.now) }
    ensures read { IfOk result (λ b. object b ≡ Ok (drafted (object_draft (fields spec.now) key.now salts.now))) }
{
    let digests = item_digests(alloc, spec.elements(), salts)?;
    write_mso(
        alloc,
        &MsoDraft {
            doc_type: document_type(spec),
            digests: digests.as_slice(),
            device_key: *key,
            signed: spec.signed(),
            from: spec.from(),
            until: spec.until(),
            update: spec.update(),
        },
    )
}
