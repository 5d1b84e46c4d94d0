//! The device's authentication of a document.

ghost use Rattle.std.specs.Prelude.{◌≡◌, IfOk, map};
ghost use Rattle.cbor_maps.specs.Writing.{named_map};
ghost use Rattle.cose_msgs.specs.Structures.{signed_structure};
ghost use Rattle.cose_msgs.specs.Written.{es256};
ghost use Rattle.key_device.specs.Ends.{came_to};
ghost use Rattle.doc_response.specs.DeviceMac.{device_mac, mac_key};
ghost use Rattle.key_device.specs.Gave.{Gave};
ghost use Rattle.key_device.specs.Plan.{Follows};
ghost use Rattle.key_device.specs.Recording.{talk};
ghost use Rattle.key_device.specs.declared.device_fault.DeviceFault.TheVariants.{Failed};
ghost use Rattle.wallet_answer.specs.ChoiceView.{choice_seen};
ghost use Rattle.wallet_model.specs.Answer.{device_auth, mac_auth, payload_of, signed_auth};

use crate::released_document::ReleasedDocument;
use cose_msgs::{PROTECTED_ES256, device_auth_bytes, signed_bytes};
use doc_response::{DeviceAuth, device_mac, mac_key};
use key_device::{DeviceFault, KeyDevice, Recorder};
use mdoc_outside::{Memory, Octets};
use session_seal::WalletAsked;
use std::alloc::Global;

/// The empty map, of the elements that the device signs.
const NO_NAMESPACES: [u8; 1] = [0xa0];

/// What the device signs or makes a code of (DeviceAuthenticationBytes; ISO/IEC 18013-5, 9.1.3.4).
#[tactic(auto, unfolding(cbor_maps::specs::Writing::map_head))]
fn payload_of(
    alloc: Global,
    session: &WalletAsked,
    choice: &ReleasedDocument<'_>,
) -> Result<Octets, Memory>
    ensures { IfOk result (λ b. b ≡ payload_of session.now (choice_seen choice.now)) }
{
    device_auth_bytes(
        alloc,
        session.transcript(),
        choice.answered.doc_type(),
        &NO_NAMESPACES,
    )
}

/// What is signed (Sig_structure; RFC 9052, section 4.4).
#[tactic(auto, unfolding(cose_msgs::specs::Written::es256, cbor_maps::specs::Writing::map_head, cbor_maps::specs::Labels::label_bytes))]
fn signed_part(
    alloc: Global,
    session: &WalletAsked,
    choice: &ReleasedDocument<'_>,
) -> Result<Octets, Memory>
    ensures { IfOk result (λ b. b ≡ signed_structure es256 (payload_of session.now (choice_seen choice.now))) }
{
    let payload = payload_of(alloc, session, choice)?;
    signed_bytes(alloc, &PROTECTED_ES256, payload.as_slice())
}

/// The code of the payload under the MAC key of a secret.
fn code_of(
    alloc: Global,
    session: &WalletAsked,
    choice: &ReleasedDocument<'_>,
    secret: &[u8; 32],
) -> Result<[u8; 32], Memory>
    ensures { IfOk result (λ tag. tag ≡ device_mac (mac_key secret.now session.now.transcript) (payload_of session.now (choice_seen choice.now))) }
{
    let payload = payload_of(alloc, session, choice)?;
    let key = mac_key(alloc, secret, session.transcript())?;
    device_mac(alloc, &key, payload.as_slice())
}

/// The device's authentication of a document by a signature (9.1.3.6).
#[tactic(auto, using(key_device::proofs::PlanLemmas::exits, key_device::proofs::GaveLemmas::gave_exits))]
fn signature<D: KeyDevice>(
    alloc: Global,
    session: &WalletAsked,
    choice: &ReleasedDocument<'_>,
    device: &mut Recorder<D>,
) -> Result<DeviceAuth, DeviceFault>
    ensures asked { Follows (signed_auth session.now (choice_seen choice.now)) (talk device.old) (talk device.new) (came_to Failed (λ auth. auth) result) }
    ensures gave { Gave D.gives D.unasked D.faults device.old device.new }
{
    let Ok(message) = signed_part(alloc, session, choice) else {
        return Err(DeviceFault::Memory);
    };
    match device.sign(choice.key, message.as_slice()) {
        Ok(signature) => Ok(DeviceAuth::Signature(signature)),
        Err(DeviceFault::Failed) => Err(DeviceFault::Failed),
        Err(DeviceFault::Memory) => Err(DeviceFault::Memory),
    }
}

/// The device's authentication of a document by a code (9.1.3.5).
#[tactic(auto, using(key_device::proofs::PlanLemmas::exits, key_device::proofs::PlanLemmas::halted, key_device::proofs::GaveLemmas::gave_exits))]
fn mac<D: KeyDevice>(
    alloc: Global,
    session: &WalletAsked,
    choice: &ReleasedDocument<'_>,
    device: &mut Recorder<D>,
) -> Result<DeviceAuth, DeviceFault>
    ensures asked { Follows (mac_auth session.now (choice_seen choice.now)) (talk device.old) (talk device.new) (came_to Failed (λ auth. auth) result) }
    ensures gave { Gave D.gives D.unasked D.faults device.old device.new }
{
    match device.agree(choice.key, session.reader_key()) {
        Ok(Some(secret)) => match code_of(alloc, session, choice, &secret) {
            Ok(tag) => Ok(DeviceAuth::Mac(tag)),
            Err(Memory) => Err(DeviceFault::Memory),
        },
        Ok(None) => Err(DeviceFault::Failed),
        Err(DeviceFault::Failed) => Err(DeviceFault::Failed),
        Err(DeviceFault::Memory) => Err(DeviceFault::Memory),
    }
}

/// The device's authentication of a document (ISO/IEC 18013-5, 9.1.3.4).
#[tactic(auto, unfolding(wallet_model::specs::Answer::device_auth))]
pub fn device_auth<D: KeyDevice>(
    alloc: Global,
    session: &WalletAsked,
    choice: &ReleasedDocument<'_>,
    device: &mut Recorder<D>,
) -> Result<DeviceAuth, DeviceFault>
    ensures asked { Follows (device_auth session.now (choice_seen choice.now)) (talk device.old) (talk device.new) (came_to Failed (λ auth. auth) result) }
    ensures gave { Gave D.gives D.unasked D.faults device.old device.new }
{
    if choice.uses_mac {
        mac(alloc, session, choice, device)
    } else {
        signature(alloc, session, choice, device)
    }
}
