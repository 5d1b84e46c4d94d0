//! Writing a certificate.

ghost use Rattle.std.specs.Prelude.{◌≡◌, length, IfOk};
ghost use Rattle.mdoc_outside.specs.Faults.{HasCause};
ghost use Rattle.key_device.specs.Gave.{Gave};
ghost use Rattle.key_device.specs.Plan.{Follows};
ghost use Rattle.key_device.specs.Recording.{inner, talk};
ghost use Rattle.cert_view.specs.Issued.{came_to, issued};
ghost use Rattle.cert_view.specs.Written.{IsWritable};
ghost use Rattle.cert_view.specs.WrittenReads.{IsDraft, IsReadBack};
ghost use Rattle.cert_view.specs.declared.write_fault.WriteFault.TheVariants.{Device, Memory};

use crate::cert_draft::CertDraft;
use crate::write_fault::WriteFault;
use crate::written_parts::{certificate_of, to_be_signed};
use key_device::{DeviceFault, KeyDevice, Recorder};
use mdoc_outside::Octets;
use std::alloc::Global;

/// Holds no work: so long an array is.
fn has_length<const N: usize>(bytes: &[u8; N])
    ensures { length bytes.now ≡ N }
{
    let _length = bytes.len();
}

/// Holds no work: what the types of a draft say of its key.
fn is_draft(draft: &CertDraft)
    requires writable { IsWritable draft.now }
    ensures { IsDraft draft.now }
{
    has_length(&draft.key.x);
    has_length(&draft.key.y);
}

/// Writes the certificate of a draft (RFC 5280, 4.1). The device is asked once, for the signature of
/// the to-be-signed part under the issuer's key; what it answers is read as the draft's fields. It
/// refuses where the device fails, and for want of memory.
#[tactic(auto, using(key_device::proofs::PlanLemmas::exits, key_device::proofs::GaveLemmas::gave_exits), unfolding(crate::specs::Issued::issued, crate::specs::Written::written))]
pub fn write_cert<D: KeyDevice>(
    alloc: Global,
    draft: &CertDraft,
    device: &mut Recorder<D>,
) -> Result<Octets, WriteFault>
    requires writable { IsWritable draft.now }
    ensures asked { Follows (issued draft.now) (talk device.old) (talk device.new) (came_to result) }
    ensures gave { Gave D.gives D.unasked D.faults device.old device.new }
    ensures read { IfOk result (IsReadBack draft.now) }
    ensures cause { HasCause Device Memory (D.faults (inner device.old)) (D.faults (inner device.new)) result }
{
    let message = to_be_signed(alloc, draft)?;
    let pair = match device.sign(draft.issuer_key, &message) {
        Ok(pair) => pair,
        Err(DeviceFault::Failed) => return Err(WriteFault::Device),
        Err(DeviceFault::Memory) => return Err(WriteFault::Memory),
    };
    is_draft(draft);
    has_length(&pair);
    Ok(certificate_of(alloc, &message, &pair)?)
}
