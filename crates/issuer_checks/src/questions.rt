//! A question about a signature.

ghost use Rattle.mdoc_outside.specs.Faults.{HasCause};
ghost use Rattle.key_device.specs.Ends.{came_to as device_came_to};
ghost use Rattle.key_device.specs.Gave.{Counts, Gave};
ghost use Rattle.key_device.specs.Plan.{Follows};
ghost use Rattle.key_device.specs.Questions.{verified};
ghost use Rattle.key_device.specs.Recording.{inner, talk};
ghost use Rattle.key_device.specs.declared.device_fault.DeviceFault.TheVariants.{Failed, Memory};
ghost use Rattle.verdict_model.specs.Steps.{asked_of_device};
ghost use Rattle.issuer_checks.specs.Ending.{came_to, fails};

use crate::CheckEnd;
use key_device::{DeviceFault, KeyDevice, Point, Recorder, ask_verified};

/// One question: whether that is the key's signature of the message.
#[tactic(auto, using(key_device::proofs::PlanLemmas::exits))]
fn verified<D: KeyDevice>(
    key: &Point,
    message: &[u8],
    signature: &[u8; 64],
    device: &mut Recorder<D>,
) -> Result<bool, DeviceFault>
    ensures asked { Follows (verified Failed key.now message.now signature.now) (talk device.old) (talk device.new) (device_came_to Failed (λ yes. yes) result) }
    ensures gave { Gave D.gives D.unasked D.faults device.old device.new }
    ensures cause { HasCause Failed Memory (D.faults (inner device.old)) (D.faults (inner device.new)) result }
{
    ask_verified::<_, DeviceFault>(key, message, signature, device)
}

/// One question among the checks of a document: whether that is the key's signature of the message. `CheckEnd::Device` is
/// answered exactly where the device's count of faults rose.
#[tactic(auto, using(key_device::proofs::PlanStepLemmas::mapped_exits))]
pub fn ask_signed<D: KeyDevice>(
    key: &Point,
    message: &[u8],
    signature: &[u8; 64],
    device: &mut Recorder<D>,
) -> Result<bool, CheckEnd>
    ensures asked { Follows (asked_of_device (verified Failed key.now message.now signature.now)) (talk device.old) (talk device.new) (came_to (λ yes. yes) result) }
    ensures gave { Gave D.gives D.unasked D.faults device.old device.new }
    ensures counts { Counts (fails result) (D.faults (inner device.old)) (D.faults (inner device.new)) }
{
    match verified(key, message, signature, device) {
        Ok(yes) => Ok(yes),
        Err(DeviceFault::Failed) => Err(CheckEnd::Device),
        Err(DeviceFault::Memory) => Err(CheckEnd::Memory),
    }
}
