//! Who asks for a document.

ghost use Rattle.std.specs.Prelude.{option_map};
ghost use Rattle.mdoc_outside.specs.Faults.{HasCause};
ghost use Rattle.key_device.specs.Ends.{came_to};
ghost use Rattle.key_device.specs.Gave.{Gave};
ghost use Rattle.key_device.specs.Plan.{Follows};
ghost use Rattle.key_device.specs.Recording.{inner, talk};
ghost use Rattle.key_device.specs.declared.device_fault.DeviceFault.TheVariants.{Failed, Memory};
ghost use Rattle.doc_request.specs.Known.{known, known_as, known_under, reader_signed, signed_under};
ghost use Rattle.doc_request.specs.KnownView.{authentication_seen};
ghost use Rattle.doc_request.specs.Views.{document_seen};

use crate::DocAsk;
use crate::authentication::Authentication;
use cert_view::{Root, Roots};
use cose_msgs::{reader_auth_bytes, signed_bytes};
use key_device::{DeviceFault, KeyDevice, Recorder, ask_verified};
use root_trust::{are_valid, confirming_root};
use std::alloc::Global;

/// Whether the reader signed what it asks for, in this session.
#[tactic(auto, using(key_device::proofs::PlanLemmas::exits, key_device::proofs::GaveLemmas::gave_exits))]
fn reader_signed<D: KeyDevice>(
    alloc: Global,
    own: &Authentication<'_>,
    transcript: &[u8],
    items: &[u8],
    device: &mut Recorder<D>,
) -> Result<bool, DeviceFault>
    ensures asked { Follows (reader_signed (authentication_seen own.now) transcript.now items.now) (talk device.old) (talk device.new) (came_to Failed (λ yes. yes) result) }
    ensures gave { Gave D.gives D.unasked D.faults device.old device.new }
    ensures cause { HasCause Failed Memory (D.faults (inner device.old)) (D.faults (inner device.new)) result }
{
    let payload = reader_auth_bytes(alloc, transcript, items)?;
    let message = signed_bytes(alloc, own.signed.protected(), payload.as_slice())?;
    ask_verified::<_, DeviceFault>(
        own.cert.key(),
        message.as_slice(),
        own.signed.signature(),
        device,
    )
}

/// The name of a root that confirms a reader's certificate, where the reader signed.
#[tactic(auto, using(key_device::proofs::PlanLemmas::exits, key_device::proofs::GaveLemmas::gave_exits), unfolding(crate::specs::Known::signed_under))]
fn signed_under<'r, D: KeyDevice>(
    alloc: Global,
    own: &Authentication<'_>,
    root: &'r Root,
    transcript: &[u8],
    items: &[u8],
    device: &mut Recorder<D>,
) -> Result<Option<&'r str>, DeviceFault>
    ensures asked { Follows (signed_under (authentication_seen own.now) root.now transcript.now items.now) (talk device.old) (talk device.new) (came_to Failed (option_map (λ name. name.now)) result) }
    ensures gave { Gave D.gives D.unasked D.faults device.old device.new }
    ensures cause { HasCause Failed Memory (D.faults (inner device.old)) (D.faults (inner device.new)) result }
{
    match reader_signed(alloc, own, transcript, items, device) {
        Ok(true) => Ok(Some(root.name())),
        Ok(false) => Ok(None),
        Err(DeviceFault::Failed) => Err(DeviceFault::Failed),
        Err(DeviceFault::Memory) => Err(DeviceFault::Memory),
    }
}

/// The same, where the moment lies in both validities.
#[tactic(auto, using(key_device::proofs::PlanLemmas::exits, key_device::proofs::GaveLemmas::gave_exits), unfolding(crate::specs::Known::known_under))]
fn known_under<'r, D: KeyDevice>(
    alloc: Global,
    own: &Authentication<'_>,
    root: &'r Root,
    transcript: &[u8],
    items: &[u8],
    moment: i64,
    device: &mut Recorder<D>,
) -> Result<Option<&'r str>, DeviceFault>
    ensures asked { Follows (known_under (authentication_seen own.now) transcript.now items.now moment root.now) (talk device.old) (talk device.new) (came_to Failed (option_map (λ name. name.now)) result) }
    ensures gave { Gave D.gives D.unasked D.faults device.old device.new }
    ensures cause { HasCause Failed Memory (D.faults (inner device.old)) (D.faults (inner device.new)) result }
{
    if !are_valid(moment, &own.cert, root) {
        return Ok(None);
    }
    signed_under(alloc, own, root, transcript, items, device)
}

/// The name of the reader whose authentication that is, where it is known.
#[tactic(auto, using(key_device::proofs::PlanLemmas::exits, key_device::proofs::GaveLemmas::gave_exits), unfolding(crate::specs::Known::known_as))]
fn known_as<'r, D: KeyDevice>(
    alloc: Global,
    own: &Authentication<'_>,
    transcript: &[u8],
    items: &[u8],
    readers: &'r [Root],
    moment: i64,
    device: &mut Recorder<D>,
) -> Result<Option<&'r str>, DeviceFault>
    ensures asked { Follows (known_as (authentication_seen own.now) transcript.now items.now readers.now moment) (talk device.old) (talk device.new) (came_to Failed (option_map (λ name. name.now)) result) }
    ensures gave { Gave D.gives D.unasked D.faults device.old device.new }
    ensures cause { HasCause Failed Memory (D.faults (inner device.old)) (D.faults (inner device.new)) result }
{
    match confirming_root(&own.cert, readers, device) {
        Ok(Some(root)) => known_under(alloc, own, root, transcript, items, moment, device),
        Ok(None) => Ok(None),
        Err(DeviceFault::Failed) => Err(DeviceFault::Failed),
        Err(DeviceFault::Memory) => Err(DeviceFault::Memory),
    }
}

/// The name of the reader that asks for a document (ISO/IEC 18013-5, 9.1.4), where it is known: it is that of the trusted
/// root of its issuer's name which confirms its certificate, and which is asked after those of that name before it said
/// no. The moment is in seconds since 1970. It refuses where the device fails, and for want of memory.
#[tactic(auto, using(key_device::proofs::PlanLemmas::exits, key_device::proofs::GaveLemmas::gave_exits), unfolding(crate::specs::Known::known))]
pub fn known_reader<'r, D: KeyDevice>(
    alloc: Global,
    document: &DocAsk<'_>,
    transcript: &[u8],
    readers: &'r Roots,
    moment: i64,
    device: &mut Recorder<D>,
) -> Result<Option<&'r str>, DeviceFault>
    ensures asked { Follows (known (document_seen document.now) transcript.now readers.now moment) (talk device.old) (talk device.new) (came_to Failed (option_map (λ name. name.now)) result) }
    ensures gave { Gave D.gives D.unasked D.faults device.old device.new }
    ensures cause { HasCause Failed Memory (D.faults (inner device.old)) (D.faults (inner device.new)) result }
{
    match Authentication::of_document(document) {
        Some(own) => known_as(
            alloc,
            &own,
            transcript,
            document.items(),
            readers.list(),
            moment,
            device,
        ),
        None => Ok(None),
    }
}
