//! Making a signer of documents.

ghost use Rattle.cert_view.specs.Written.{IsTime, IsWritable};
ghost use Rattle.issue_spec.specs.Spec.{fields};
ghost use Rattle.mdoc_outside.specs.Faults.{HasCause};
ghost use Rattle.key_device.specs.Ends.{came_to};
ghost use Rattle.key_device.specs.Gave.{Gave};
ghost use Rattle.key_device.specs.Plan.{Follows};
ghost use Rattle.key_device.specs.Recording.{inner, talk};
ghost use Rattle.key_device.specs.declared.device_fault.DeviceFault.TheVariants as devices;
ghost use Rattle.issuing.specs.declared.issue_fault.IssueFault.TheVariants as issues;
ghost use Rattle.issuing.specs.Signers.{certified, new_signer, signer_of, with_keys, with_root_certificate};

use crate::drafts::{root_draft, signer_draft};
use crate::issue_fault::IssueFault;
use crate::signer::Signer;
use cert_view::{CertDraft, WriteFault, write_cert};
use issue_spec::{Spec, SpecSigner};
use key_device::{DeviceFault, KeyDevice, Made, Recorder, ask_fresh};
use mdoc_outside::Octets;
use std::alloc::Global;

/// The certificate of a draft, which a key of the device signs.
fn certified<D: KeyDevice>(
    alloc: Global,
    draft: &CertDraft,
    device: &mut Recorder<D>,
) -> Result<Octets, DeviceFault>
    requires { IsWritable draft.now }
    ensures asked { Follows (certified draft.now) (talk device.old) (talk device.new) (came_to issues.Device (λ made. made) result) }
    ensures gave { Gave D.gives D.unasked D.faults device.old device.new }
    ensures cause { HasCause devices.Failed devices.Memory (D.faults (inner device.old)) (D.faults (inner device.new)) result }
{
    match write_cert(alloc, draft, device) {
        Ok(certificate) => Ok(certificate),
        Err(WriteFault::Device) => Err(DeviceFault::Failed),
        Err(WriteFault::Memory) => Err(DeviceFault::Memory),
    }
}

/// The signer with these keys, whose root's certificate is there.
fn with_root_certificate<D: KeyDevice>(
    alloc: Global,
    validity: (i64, i64),
    root: &Made,
    signer: &Made,
    root_certificate: Octets,
    device: &mut Recorder<D>,
) -> Result<Signer, DeviceFault>
    requires from { IsTime validity.0 }
    requires until { IsTime validity.1 }
    ensures asked { Follows (with_root_certificate validity.0 validity.1 root.now signer.now root_certificate) (talk device.old) (talk device.new) (came_to issues.Device (λ made. made) result) }
    ensures gave { Gave D.gives D.unasked D.faults device.old device.new }
    ensures cause { HasCause devices.Failed devices.Memory (D.faults (inner device.old)) (D.faults (inner device.new)) result }
{
    let draft = match signer_draft(alloc, validity, root, signer) {
        Ok(draft) => draft,
        Err(_) => return Err(DeviceFault::Memory),
    };
    match certified(alloc, &draft, device) {
        Ok(certificate) => Ok(Signer {
            key: signer.key,
            certificate,
            root: Some(root_certificate),
        }),
        Err(fault) => Err(fault),
    }
}

/// The signer with these keys.
fn with_keys<D: KeyDevice>(
    alloc: Global,
    validity: (i64, i64),
    root: &Made,
    signer: &Made,
    device: &mut Recorder<D>,
) -> Result<Signer, DeviceFault>
    requires from { IsTime validity.0 }
    requires until { IsTime validity.1 }
    ensures asked { Follows (with_keys validity.0 validity.1 root.now signer.now) (talk device.old) (talk device.new) (came_to issues.Device (λ made. made) result) }
    ensures gave { Gave D.gives D.unasked D.faults device.old device.new }
    ensures cause { HasCause devices.Failed devices.Memory (D.faults (inner device.old)) (D.faults (inner device.new)) result }
{
    let draft = match root_draft(alloc, validity, root) {
        Ok(draft) => draft,
        Err(_) => return Err(DeviceFault::Memory),
    };
    match certified(alloc, &draft, device) {
        Ok(certificate) => with_root_certificate(
            alloc,
            validity,
            root,
            signer,
            certificate,
            device,
        ),
        Err(fault) => Err(fault),
    }
}

/// A new signer: a root key, a signer key, and their certificates, both signed by the root key.
fn new_signer<D: KeyDevice>(
    alloc: Global,
    validity: (i64, i64),
    device: &mut Recorder<D>,
) -> Result<Signer, DeviceFault>
    requires from { IsTime validity.0 }
    requires until { IsTime validity.1 }
    ensures asked { Follows (new_signer validity.0 validity.1) (talk device.old) (talk device.new) (came_to issues.Device (λ made. made) result) }
    ensures gave { Gave D.gives D.unasked D.faults device.old device.new }
    ensures cause { HasCause devices.Failed devices.Memory (D.faults (inner device.old)) (D.faults (inner device.new)) result }
{
    let root = match ask_fresh::<_, IssueFault>(device) {
        Ok(made) => made,
        Err(fault) => return Err(fault),
    };
    match ask_fresh::<_, IssueFault>(device) {
        Ok(signer) => with_keys(alloc, validity, &root, &signer, device),
        Err(fault) => Err(fault),
    }
}

/// The signer that a spec names: the key that it says, with its certificate, or a new one of the issuer's device,
/// whose certificate and that of its root are valid as long as the documents are.
pub fn signer_of<D: KeyDevice>(
    alloc: Global,
    spec: &Spec,
    device: &mut Recorder<D>,
) -> Result<Signer, DeviceFault>
    ensures asked { Follows (signer_of (fields spec.now)) (talk device.old) (talk device.new) (came_to issues.Device (λ made. made) result) }
    ensures gave { Gave D.gives D.unasked D.faults device.old device.new }
    ensures cause { HasCause devices.Failed devices.Memory (D.faults (inner device.old)) (D.faults (inner device.new)) result }
{
    match spec.signer() {
        SpecSigner::New => new_signer(alloc, (spec.from(), spec.until()), device),
        SpecSigner::Known(key, certificate) => {
            match Octets::copy_of(alloc, certificate.as_slice()) {
                Ok(certificate) => Ok(Signer {
                    key: *key,
                    certificate,
                    root: None,
                }),
                Err(_) => Err(DeviceFault::Memory),
            }
        }
    }
}
