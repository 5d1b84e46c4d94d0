// One question to a recorder's device.
ghost use Rattle.mdoc_outside.specs.Faults.{HasCause};
ghost use Rattle.key_device.specs.Ends.{came_to};
ghost use Rattle.key_device.specs.Gave.{Gave};
ghost use Rattle.key_device.specs.Plan.{Follows};
ghost use Rattle.key_device.specs.Questions.{fresh, signed, verified};
ghost use Rattle.key_device.specs.Recording.{inner, talk};
ghost use Rattle.key_device.specs.declared.device_fault.DeviceFault.TheVariants.{Failed, Memory};

use crate::{DeviceFault, KeyDevice, Made, Point, Recorder};

/// One question: for a new key. It follows its plan whatever error the device's failure comes to there.
#[tactic(auto, using(crate::proofs::PlanLemmas::exits))]
pub fn ask_fresh<D: KeyDevice, E>(device: &mut Recorder<D>) -> Result<Made, DeviceFault>
    ensures asked { (error : E) → Follows (fresh error) (talk device.old) (talk device.new) (came_to error (λ made. made) result) }
    ensures gave { Gave D.gives D.unasked D.faults device.old device.new }
    ensures cause { HasCause Failed Memory (D.faults (inner device.old)) (D.faults (inner device.new)) result }
{
    device.fresh()
}

/// One question: for the signature of the device's key of that number over a message.
#[tactic(auto, using(crate::proofs::PlanLemmas::exits))]
pub fn ask_signature<D: KeyDevice, E>(
    key: u32,
    message: &[u8],
    device: &mut Recorder<D>,
) -> Result<[u8; 64], DeviceFault>
    ensures asked { (error : E) → Follows (signed error key message.now) (talk device.old) (talk device.new) (came_to error (λ signature. signature) result) }
    ensures gave { Gave D.gives D.unasked D.faults device.old device.new }
    ensures cause { HasCause Failed Memory (D.faults (inner device.old)) (D.faults (inner device.new)) result }
{
    device.sign(key, message)
}

/// One question: whether that is the key's signature of the message.
#[tactic(auto, using(crate::proofs::PlanLemmas::exits))]
pub fn ask_verified<D: KeyDevice, E>(
    key: &Point,
    message: &[u8],
    signature: &[u8; 64],
    device: &mut Recorder<D>,
) -> Result<bool, DeviceFault>
    ensures asked { (error : E) → Follows (verified error key.now message.now signature.now) (talk device.old) (talk device.new) (came_to error (λ yes. yes) result) }
    ensures gave { Gave D.gives D.unasked D.faults device.old device.new }
    ensures cause { HasCause Failed Memory (D.faults (inner device.old)) (D.faults (inner device.new)) result }
{
    device.verify(key, message, signature)
}
