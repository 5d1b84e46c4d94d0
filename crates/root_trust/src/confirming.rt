//! The trusted root that confirms a certificate.

ghost use Rattle.std.specs.Prelude.{option_map};
ghost use Rattle.mdoc_outside.specs.Faults.{HasCause};
ghost use Rattle.cert_view.specs.Cert.{fields};
ghost use Rattle.key_device.specs.Ends.{came_to};
ghost use Rattle.key_device.specs.Gave.{Gave};
ghost use Rattle.key_device.specs.Plan.{Follows};
ghost use Rattle.key_device.specs.Recording.{inner, talk};
ghost use Rattle.key_device.specs.declared.device_fault.DeviceFault.TheVariants.{Failed, Memory};
ghost use Rattle.root_trust.specs.Confirming.{confirming_root, root_confirms};

use crate::names::is_named;
use cert_view::{Cert, Root};
use key_device::{DeviceFault, KeyDevice, Recorder, ask_verified};

/// Whether a root confirms a certificate: it is of the issuer's name, and it signed the certificate. One of another
/// name isn't asked.
#[tactic(auto, using(key_device::proofs::PlanLemmas::exits, key_device::proofs::GaveLemmas::gave_exits))]
fn root_confirms<D: KeyDevice>(
    cert: &Cert<'_>,
    root: &Root,
    device: &mut Recorder<D>,
) -> Result<bool, DeviceFault>
    ensures asked { Follows (root_confirms (fields cert.now) root.now) (talk device.old) (talk device.new) (came_to Failed (λ yes. yes) result) }
    ensures gave { Gave D.gives D.unasked D.faults device.old device.new }
    ensures cause { HasCause Failed Memory (D.faults (inner device.old)) (D.faults (inner device.new)) result }
{
    if !is_named(cert, root) {
        return Ok(false);
    }
    let ask = cert.asks(root);
    ask_verified::<_, DeviceFault>(&ask.public, ask.message, &ask.signature, device)
}

/// The first root that confirms a certificate, in the order of the file. It refuses where the device fails, and for want
/// of memory.
#[tactic(auto, using(key_device::proofs::PlanStepLemmas::first_exits, key_device::proofs::GaveLemmas::gave_exits), unfolding(crate::specs::Confirming::confirming_root))]
pub fn confirming_root<'r, D: KeyDevice>(
    cert: &Cert<'_>,
    roots: &'r [Root],
    device: &mut Recorder<D>,
) -> Result<Option<&'r Root>, DeviceFault>
    ensures asked { Follows (confirming_root (fields cert.now) roots.now) (talk device.old) (talk device.new) (came_to Failed (option_map (λ root. root.now)) result) }
    ensures gave { Gave D.gives D.unasked D.faults device.old device.new }
    ensures cause { HasCause Failed Memory (D.faults (inner device.old)) (D.faults (inner device.new)) result }
{
    for root in roots {
        match root_confirms(cert, root, device) {
            Ok(true) => return Ok(Some(root)),
            Ok(false) => {}
            Err(DeviceFault::Failed) => return Err(DeviceFault::Failed),
            Err(DeviceFault::Memory) => return Err(DeviceFault::Memory),
        }
    }
    Ok(None)
}
