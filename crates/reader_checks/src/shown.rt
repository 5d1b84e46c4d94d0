//! That a device shows a document in a session.

ghost use Rattle.std.specs.Prelude.{◌≡◌, IfOk};
ghost use Rattle.cose_msgs.specs.MessageView.{authenticated, signed};
ghost use Rattle.doc_response.specs.ResponseDocs.{document_seen};
ghost use Rattle.key_device.specs.Gave.{Counts, Gave};
ghost use Rattle.key_device.specs.Plan.{Done, Follows};
ghost use Rattle.key_device.specs.Recording.{inner, talk};
ghost use Rattle.verdict_model.specs.Shown.{BySignature, ByMac, code_of, matches, shown, shown_by};
ghost use Rattle.issuer_checks.specs.Ending.{came_to, checked, fails};
ghost use Rattle.reader_checks.specs.Views.{proof_seen, session_seen};

use crate::device_proof::{DeviceProof, device_proof};
use crate::judge_context::SessionBinding;
use cose_msgs::{Mac0, Sign1, mac_bytes, signed_bytes};
use doc_response::{ResponseDoc, device_auth_bytes, mac_key};
use hmac_hkdf::hmac;
use issuer_checks::{CheckEnd, ask_signed};
use key_device::{DeviceFault, KeyDevice, Point, Recorder};
use mdoc_outside::Memory as OutOfMemory;
use std::alloc::Global;
use verdict_model::DocCheck;

/// Whether the device signed the payload.
#[tactic(auto, using(key_device::proofs::PlanLemmas::exits, key_device::proofs::GaveLemmas::gave_exits))]
fn shown_by_signature<D: KeyDevice>(
    alloc: Global,
    session: &SessionBinding<'_>,
    key: &Point,
    payload: &[u8],
    proof: &Sign1<'_>,
    device: &mut Recorder<D>,
) -> Result<(), CheckEnd>
    ensures asked { Follows (shown_by (session_seen session.now) key.now payload.now (BySignature (signed proof.now))) (talk device.old) (talk device.new) (came_to (λ u. u) result) }
    ensures gave { Gave D.gives D.unasked D.faults device.old device.new }
    ensures counts { Counts (fails result) (D.faults (inner device.old)) (D.faults (inner device.new)) }
{
    let message = signed_bytes(alloc, proof.protected(), payload)?;
    match ask_signed(key, message.as_slice(), proof.signature(), device) {
        Ok(true) => Ok(()),
        Ok(false) => Err(CheckEnd::Refused(DocCheck::DeviceSignature)),
        Err(stop) => Err(stop),
    }
}

/// The code that the session calls for.
fn code_of(
    alloc: Global,
    session: &SessionBinding<'_>,
    payload: &[u8],
    protected: &[u8],
    secret: &[u8; 32],
) -> Result<[u8; 32], OutOfMemory>
    ensures { IfOk result (λ code. code ≡ code_of (session_seen session.now) payload.now protected.now secret.now) }
{
    let key = mac_key(alloc, secret, session.transcript)?;
    let structure = mac_bytes(alloc, protected, payload)?;
    Ok(hmac(&key, structure.as_slice()))
}

/// Whether a code is that of the session.
fn matches(kept: &[u8; 32], made: [u8; 32]) -> Result<(), DocCheck>
    ensures { matches kept.now made ≡ Done (checked (λ u. u) result) }
{
    if *kept == made {
        Ok(())
    } else {
        Err(DocCheck::DeviceMac { kept: *kept, made })
    }
}

/// Whether the device made the code of the payload.
#[tactic(auto, using(key_device::proofs::PlanLemmas::exits, key_device::proofs::GaveLemmas::gave_exits))]
fn shown_by_mac<D: KeyDevice>(
    alloc: Global,
    session: &SessionBinding<'_>,
    key: &Point,
    payload: &[u8],
    proof: &Mac0<'_>,
    device: &mut Recorder<D>,
) -> Result<(), CheckEnd>
    ensures asked { Follows (shown_by (session_seen session.now) key.now payload.now (ByMac (authenticated proof.now))) (talk device.old) (talk device.new) (came_to (λ u. u) result) }
    ensures gave { Gave D.gives D.unasked D.faults device.old device.new }
    ensures counts { Counts (fails result) (D.faults (inner device.old)) (D.faults (inner device.new)) }
{
    let secret = match device.agree(session.key, key) {
        Ok(Some(secret)) => secret,
        Ok(None) => return Err(CheckEnd::Refused(DocCheck::DeviceKeyRefused)),
        Err(DeviceFault::Failed) => return Err(CheckEnd::Device),
        Err(DeviceFault::Memory) => return Err(CheckEnd::Memory),
    };
    let made = code_of(alloc, session, payload, proof.protected(), &secret)?;
    match matches(proof.tag(), made) {
        Ok(()) => Ok(()),
        Err(check) => Err(CheckEnd::Refused(check)),
    }
}

/// Whether the device of that key shows the document (ISO/IEC 18013-5, 9.1.3).
#[tactic(auto, using(key_device::proofs::PlanLemmas::exits, key_device::proofs::GaveLemmas::gave_exits), unfolding(verdict_model::specs::Shown::shown))]
pub(crate) fn shown<D: KeyDevice>(
    alloc: Global,
    session: &SessionBinding<'_>,
    key: &Point,
    document: &ResponseDoc<'_>,
    device: &mut Recorder<D>,
) -> Result<(), CheckEnd>
    ensures asked { Follows (shown (session_seen session.now) key.now (document_seen document.now)) (talk device.old) (talk device.new) (came_to (λ u. u) result) }
    ensures gave { Gave D.gives D.unasked D.faults device.old device.new }
    ensures counts { Counts (fails result) (D.faults (inner device.old)) (D.faults (inner device.new)) }
{
    let Some(proof) = device_proof(document.device_auth()) else {
        return Err(CheckEnd::Refused(DocCheck::DeviceAuthForm));
    };
    let payload = device_auth_bytes(
        alloc,
        session.transcript,
        document.doc_type(),
        document.device_namespaces(),
    )?;
    match proof {
        DeviceProof::BySignature(signed) => {
            shown_by_signature(alloc, session, key, payload.as_slice(), &signed, device)
        }
        DeviceProof::ByMac(code) => {
            shown_by_mac(alloc, session, key, payload.as_slice(), &code, device)
        }
    }
}
