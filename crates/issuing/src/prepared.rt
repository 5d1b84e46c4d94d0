//! A copy before and after it is signed.

ghost use Rattle.std.specs.Prelude.{◌≡◌, ◌++◌, length, IfOk, OnOk, Some};
ghost use Rattle.cose_msgs.specs.Structures.{signed_structure};
ghost use Rattle.cose_msgs.specs.Written.{es256, sign1_bytes};
ghost use Rattle.issue_spec.specs.Spec.{fields};
ghost use Rattle.issuing.specs.Copies.{finished_copy, message};
ghost use Rattle.issuing.specs.IssuedItems.{items_of, payload};
ghost use Rattle.store_write.specs.Written.{copy_bytes};

use crate::grouped_items::put_grouped_items;
use crate::objects::write_object;
use crate::signer::Signer;
use cbor_write::Build;
use cose_msgs::{PROTECTED_ES256, signed_bytes, write_sign1};
use issue_spec::Spec;
use key_device::{Made, Point};
use mdoc_outside::{Memory, Octets};
use std::alloc::Global;
use store_write::put_copy_head;

/// A copy that is to be signed.
#[derive(Drop)]
pub(crate) struct Prepared {
    /// The payload of the signature: the security object.
    pub(crate) payload: Octets,
    /// What is signed.
    pub(crate) message: Octets,
}

/// What the issuer signs for a payload (Sig_structure; RFC 9052, section 4.4).
#[tactic(auto, unfolding(cose_msgs::specs::Written::es256, cbor_maps::specs::Labels::label_bytes, cbor_maps::specs::Writing::map_head))]
fn message_of(alloc: Global, payload: &[u8]) -> Result<Octets, Memory>
    ensures { IfOk result (λ m. m ≡ signed_structure es256 payload.now) }
{
    signed_bytes(alloc, &PROTECTED_ES256, payload)
}

/// What is signed for the copy with this device key and these salts.
pub(crate) fn prepare(
    alloc: Global,
    spec: &Spec,
    key: &Point,
    salts: &[[u8; 32]],
) -> Result<Prepared, Memory>
    requires { length salts.now ≡ length (fields spec.now).elements }
    ensures payload { IfOk result (λ p. p.payload ≡ payload (fields spec.now) key.now salts.now) }
    ensures message { IfOk result (λ p. p.message ≡ message (fields spec.now) key.now salts.now) }
{
    let payload = write_object(alloc, spec, key, salts)?;
    let message = message_of(alloc, payload.as_slice())?;
    Ok(Prepared { payload, message })
}

/// The issuer's signature, beside which is the certificate of the signer (ISO/IEC 18013-5, 9.1.2.4).
fn issuer_auth(
    alloc: Global,
    signer: &Signer,
    prepared: &Prepared,
    signature: &[u8; 64],
) -> Result<Octets, Memory>
    ensures { IfOk result (λ b. b ≡ sign1_bytes (Some signer.now.certificate) (Some prepared.now.payload) signature.now) }
{
    write_sign1(
        alloc,
        Some(signer.certificate.as_slice()),
        Some(prepared.payload.as_slice()),
        signature,
    )
}

/// Appends the copy with the issuer's signature, as a store has it.
pub(crate) fn finish(
    alloc: Global,
    build: &mut Build,
    spec: &Spec,
    signer: &Signer,
    made: &Made,
    salts: &[[u8; 32]],
    prepared: &Prepared,
    signature: &[u8; 64],
) -> Result<(), Memory>
    requires { length salts.now ≡ length (fields spec.now).elements }
    ensures { OnOk result (build.new ≡ build.old ++ copy_bytes (finished_copy signer.now made.now (items_of (fields spec.now).elements salts.now) prepared.now.payload signature.now)) }
{
    let auth = issuer_auth(alloc, signer, prepared, signature)?;
    put_copy_head(build, made.key, false, auth.as_slice())?;
    put_grouped_items(alloc, build, spec.elements(), salts)
}
