//! The issuer's signature of a copy.

ghost use Rattle.std.specs.Prelude.{◌≡◌, length};
ghost use Rattle.issue_spec.specs.Spec.{fields};
ghost use Rattle.mdoc_outside.specs.Faults.{HasCause};
ghost use Rattle.key_device.specs.Ends.{came_to};
ghost use Rattle.key_device.specs.Gave.{Gave};
ghost use Rattle.key_device.specs.Plan.{Follows};
ghost use Rattle.key_device.specs.Recording.{inner, talk};
ghost use Rattle.key_device.specs.declared.device_fault.DeviceFault.TheVariants as devices;
ghost use Rattle.issuing.specs.declared.issue_fault.IssueFault.TheVariants as issues;
ghost use Rattle.issuing.specs.Appending.{Appends};
ghost use Rattle.issuing.specs.Copies.{signed_copy};

use crate::issue_fault::IssueFault;
use crate::prepared::{finish, prepare};
use crate::signer::Signer;
use cbor_write::Build;
use issue_spec::Spec;
use key_device::{DeviceFault, KeyDevice, Made, Recorder, ask_signature};
use std::alloc::Global;

/// Appends the copy with this device key and these salts, which the issuer's device signs.
pub(crate) fn signed_copy<E: KeyDevice>(
    alloc: Global,
    build: &mut Build,
    spec: &Spec,
    signer: &Signer,
    made: &Made,
    salts: &[[u8; 32]],
    issuer: &mut Recorder<E>,
) -> Result<(), DeviceFault>
    requires { length salts.now ≡ length (fields spec.now).elements }
    ensures asked { Appends (λ bytes. bytes) (λ came. Follows (signed_copy (fields spec.now) signer.now made.now salts.now) (talk issuer.old) (talk issuer.new) (came_to issues.Device (λ bytes. bytes) came)) build.old build.new result }
    ensures gave { Gave E.gives E.unasked E.faults issuer.old issuer.new }
    ensures cause { HasCause devices.Failed devices.Memory (E.faults (inner issuer.old)) (E.faults (inner issuer.new)) result }
{
    let prepared = match prepare(alloc, spec, &made.public, salts) {
        Ok(prepared) => prepared,
        Err(_) => return Err(DeviceFault::Memory),
    };
    match ask_signature::<_, IssueFault>(signer.key, prepared.message.as_slice(), issuer) {
        Ok(signature) => {
            match finish(
                alloc, build, spec, signer, made, salts, &prepared, &signature,
            ) {
                Ok(()) => Ok(()),
                Err(_) => Err(DeviceFault::Memory),
            }
        }
        Err(fault) => Err(fault),
    }
}
