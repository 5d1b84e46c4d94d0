//! Who asks for the documents.

ghost use Rattle.std.specs.Prelude.{◌≡◌, map};
ghost use Rattle.key_device.specs.Ends.{came_to};
ghost use Rattle.key_device.specs.Gave.{Gave};
ghost use Rattle.key_device.specs.Plan.{Follows};
ghost use Rattle.key_device.specs.PlanSteps.{each};
ghost use Rattle.key_device.specs.Recording.{talk};
ghost use Rattle.key_device.specs.declared.device_fault.DeviceFault.TheVariants.{Failed};
ghost use Rattle.wallet_answer.specs.KnownView.{known_of};
ghost use Rattle.wallet_answer.specs.Texts.{reader_seen};

use cert_view::Roots;
use doc_request::{DocAsk, known_reader};
use key_device::{DeviceFault, KeyDevice, Recorder};
use std::alloc::Global;

/// The readers of the documents that are asked for, in order (ISO/IEC 18013-5, 9.1.4), by the trusted roots, each by the
/// name of its root, where it is known. The moment is in seconds since 1970. It refuses where the device fails, and for
/// want of memory.
#[tactic(auto, using(key_device::proofs::PlanStepLemmas::each_exits, key_device::proofs::GaveLemmas::gave_exits))]
pub fn known_readers<'a, D: KeyDevice>(
    alloc: Global,
    readers: &'a Roots,
    moment: i64,
    transcript: &[u8],
    documents: &[DocAsk<'_>],
    device: &mut Recorder<D>,
) -> Result<Vec<Option<&'a str>>, DeviceFault>
    ensures asked { Follows (each (known_of readers.now moment transcript.now) documents.now) (talk device.old) (talk device.new) (came_to Failed (λ v. map reader_seen v.items) result) }
    ensures gave { Gave D.gives D.unasked D.faults device.old device.new }
{
    let mut known = Vec::new(alloc);
    for document in documents {
        known.reserve(1)?;
        match known_reader(alloc, document, transcript, readers, moment, device) {
            Ok(reader) => known.push_reserved(reader),
            Err(DeviceFault::Failed) => return Err(DeviceFault::Failed),
            Err(DeviceFault::Memory) => return Err(DeviceFault::Memory),
        }
    }
    Ok(known)
}
