//! The security object of a document.

ghost use Rattle.std.specs.Prelude.{◌≡◌, IfOk, option_map, true};
ghost use Rattle.cert_view.specs.Cert.{fields};
ghost use Rattle.cose_msgs.specs.Structures.{signed_structure};
ghost use Rattle.key_device.specs.Questions.{verified};
ghost use Rattle.key_device.specs.Gave.{Counts, Gave};
ghost use Rattle.key_device.specs.Plan.{Done, Follows};
ghost use Rattle.key_device.specs.Recording.{inner, talk};
ghost use Rattle.mso_digests.specs.Digests.{have_length};
ghost use Rattle.mso_digests.specs.MsoView.{object_seen};
ghost use Rattle.verdict_model.specs.IssuerStatement.{device_key, object_of, timely};
ghost use Rattle.verdict_model.specs.Steps.{asked_of_device};
ghost use Rattle.issuer_checks.specs.Checks.{is_issued, object_checks};
ghost use Rattle.issuer_checks.specs.Ending.{came_to, checked, fails};
ghost use Rattle.issuer_checks.specs.Views.{signer_seen};

use crate::questions::ask_signed;
use crate::signer::Signer;
use crate::{CheckEnd, TrustedRoots};
use cbor_view::View;
use cert_view::Cert;
use cose_msgs::{CoseKey, signed_bytes};
use key_device::{KeyDevice, Point, Recorder};
use mso_digests::Mso;
use root_trust::is_valid;
use std::alloc::Global;
use verdict_model::DocCheck;

/// Whether the object was signed while the certificate was valid, and is valid at the moment.
fn timely(trust: &TrustedRoots<'_>, cert: &Cert<'_>, object: &Mso<'_>) -> Result<(), DocCheck>
    ensures { timely (fields cert.now) trust.now.moment (object_seen object.now) ≡ Done (checked (λ u. u) result) }
{
    if !is_valid(object.signed(), cert) {
        return Err(DocCheck::SignedTime {
            signed: object.signed(),
            from: cert.not_before(),
        });
    }
    if trust.moment < object.from() {
        return Err(DocCheck::NotYetValid {
            from: object.from(),
            moment: trust.moment,
        });
    }
    if object.until() < trust.moment {
        return Err(DocCheck::Expired {
            until: object.until(),
            moment: trust.moment,
        });
    }
    Ok(())
}

/// The object that was signed, where it is one of that type and valid at the moment.
#[tactic(auto, using(crate::proofs::ObjectLengths::lengths_read))]
fn object_in<'a>(
    trust: &TrustedRoots<'_>,
    doc_type: &str,
    signer: &Signer<'a>,
) -> Result<Mso<'a>, DocCheck>
    ensures checks { object_checks trust.now.moment doc_type.now (signer_seen signer.now) ≡ Done (checked object_seen result) }
    ensures lengths { IfOk result (λ object. have_length (object_seen object).digests ≡ true) }
{
    let Ok(object) = Mso::read(signer.auth.payload) else {
        return Err(DocCheck::MsoForm);
    };
    if object.doc_type() != doc_type {
        return Err(DocCheck::DocTypeDiffers);
    }
    match timely(trust, &signer.cert, &object) {
        Ok(()) => Ok(object),
        Err(check) => Err(check),
    }
}

/// Whether the signer signed the payload.
#[tactic(auto, using(key_device::proofs::PlanLemmas::exits, key_device::proofs::GaveLemmas::gave_exits))]
fn is_issued<D: KeyDevice>(
    alloc: Global,
    signer: &Signer<'_>,
    device: &mut Recorder<D>,
) -> Result<bool, CheckEnd>
    ensures asked { Follows (is_issued (signer_seen signer.now)) (talk device.old) (talk device.new) (came_to (λ yes. yes) result) }
    ensures gave { Gave D.gives D.unasked D.faults device.old device.new }
    ensures counts { Counts (fails result) (D.faults (inner device.old)) (D.faults (inner device.new)) }
{
    let signed = &signer.auth.signed;
    let message = signed_bytes(alloc, signed.protected(), signer.auth.payload)?;
    ask_signed(
        signer.cert.key(),
        message.as_slice(),
        signed.signature(),
        device,
    )
}

/// The object that the signer signed, where it is one of that type and valid at the moment.
#[tactic(auto, using(key_device::proofs::PlanLemmas::exits, key_device::proofs::GaveLemmas::gave_exits))]
pub(crate) fn object_of<'a, D: KeyDevice>(
    alloc: Global,
    trust: &TrustedRoots<'_>,
    doc_type: &str,
    signer: &Signer<'a>,
    device: &mut Recorder<D>,
) -> Result<Mso<'a>, CheckEnd>
    ensures asked { Follows (object_of trust.now.moment doc_type.now (signer_seen signer.now)) (talk device.old) (talk device.new) (came_to object_seen result) }
    ensures lengths { IfOk result (λ object. have_length (object_seen object).digests ≡ true) }
    ensures gave { Gave D.gives D.unasked D.faults device.old device.new }
    ensures counts { Counts (fails result) (D.faults (inner device.old)) (D.faults (inner device.new)) }
{
    match is_issued(alloc, signer, device) {
        Ok(true) => match object_in(trust, doc_type, signer) {
            Ok(object) => Ok(object),
            Err(check) => Err(CheckEnd::Refused(check)),
        },
        Ok(false) => Err(CheckEnd::Refused(DocCheck::IssuerSignature)),
        Err(stop) => Err(stop),
    }
}

/// The device key that an object names, where it is one of the curve P-256.
pub(crate) fn device_key(object: &Mso<'_>) -> Option<Point>
    ensures { result ≡ device_key (object_seen object.now) }
{
    let Ok(item) = View::read(object.device_key().raw()) else {
        return None;
    };
    match CoseKey::read(item) {
        Ok(key) => Some(key.point),
        Err(_) => None,
    }
}
