//! The trusted root of a certificate, among the checks of a document.

ghost use Rattle.std.specs.Prelude.{option_map};
ghost use Rattle.cert_view.specs.Cert.{fields};
ghost use Rattle.key_device.specs.Gave.{Counts, Gave};
ghost use Rattle.key_device.specs.Plan.{Follows};
ghost use Rattle.key_device.specs.Recording.{inner, talk};
ghost use Rattle.root_trust.specs.Confirming.{confirming_root};
ghost use Rattle.verdict_model.specs.Steps.{asked_of_device};
ghost use Rattle.issuer_checks.specs.Ending.{came_to, fails};

use crate::CheckEnd;
use cert_view::{Cert, Root};
use key_device::{DeviceFault, KeyDevice, Recorder};
use root_trust::confirming_root;

/// The first root that confirms a certificate, in the order of the file.
#[tactic(auto, using(key_device::proofs::PlanStepLemmas::mapped_exits))]
pub(crate) fn signing_root<'r, D: KeyDevice>(
    cert: &Cert<'_>,
    roots: &'r [Root],
    device: &mut Recorder<D>,
) -> Result<Option<&'r Root>, CheckEnd>
    ensures asked { Follows (asked_of_device (confirming_root (fields cert.now) roots.now)) (talk device.old) (talk device.new) (came_to (option_map (λ root. root.now)) result) }
    ensures gave { Gave D.gives D.unasked D.faults device.old device.new }
    ensures counts { Counts (fails result) (D.faults (inner device.old)) (D.faults (inner device.new)) }
{
    match confirming_root(cert, roots, device) {
        Ok(found) => Ok(found),
        Err(DeviceFault::Failed) => Err(CheckEnd::Device),
        Err(DeviceFault::Memory) => Err(CheckEnd::Memory),
    }
}
