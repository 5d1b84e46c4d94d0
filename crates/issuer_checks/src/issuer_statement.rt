//! What the issuer says of a document (ISO/IEC 18013-5, 9.1.2.2 and 9.1.2.4).

ghost use Rattle.std.specs.Prelude.{◌≡◌, IfOk, true};
ghost use Rattle.cbor_view.specs.View.{part};
ghost use Rattle.key_device.specs.Gave.{Counts, Gave};
ghost use Rattle.key_device.specs.Plan.{Follows};
ghost use Rattle.key_device.specs.Recording.{inner, talk};
ghost use Rattle.mso_digests.specs.Digests.{have_length};
ghost use Rattle.mso_digests.specs.MsoView.{object_seen};
ghost use Rattle.verdict_model.specs.IssuerStatement.{issued};
ghost use Rattle.issuer_checks.specs.Checks.{issued_object};
ghost use Rattle.issuer_checks.specs.Ending.{came_to, fails};
ghost use Rattle.issuer_checks.specs.Views.{issued_seen};

use crate::object::{device_key, object_of};
use crate::signer::signer_of;
use crate::{CheckEnd, TrustedRoots};
use cbor_view::View;
use key_device::{KeyDevice, Point, Recorder};
use mso_digests::Mso;
use std::alloc::Global;
use verdict_model::DocCheck;

/// What the issuer says of a document.
#[derive(Clone, Copy)]
pub struct IssuerStatement<'a> {
    /// The security object (ISO/IEC 18013-5, 9.1.2.4).
    pub object: Mso<'a>,
    /// The device key that it names.
    pub key: Point,
}

/// The object that a trusted signer signed.
#[tactic(auto, using(key_device::proofs::PlanLemmas::exits, key_device::proofs::GaveLemmas::gave_exits))]
fn issued_object<'a, D: KeyDevice>(
    alloc: Global,
    trust: &TrustedRoots<'_>,
    doc_type: &str,
    item: View<'a>,
    device: &mut Recorder<D>,
) -> Result<Mso<'a>, CheckEnd>
    ensures asked { Follows (issued_object trust.now.roots.now trust.now.moment doc_type.now (part item.entry)) (talk device.old) (talk device.new) (came_to object_seen result) }
    ensures lengths { IfOk result (λ object. have_length (object_seen object).digests ≡ true) }
    ensures gave { Gave D.gives D.unasked D.faults device.old device.new }
    ensures counts { Counts (fails result) (D.faults (inner device.old)) (D.faults (inner device.new)) }
{
    match signer_of(trust, item, device) {
        Ok(signer) => object_of(alloc, trust, doc_type, &signer, device),
        Err(stop) => Err(stop),
    }
}

/// The object that a trusted signer signed, with the device key (ISO/IEC 18013-5, 9.3.1), else the first check that fails.
/// `CheckEnd::Device` is answered exactly where the device's count of faults rose.
#[tactic(auto, using(key_device::proofs::PlanLemmas::exits, key_device::proofs::GaveLemmas::gave_exits), unfolding(verdict_model::specs::IssuerStatement::issued))]
pub fn issuer_says<'a, D: KeyDevice>(
    alloc: Global,
    trust: &TrustedRoots<'_>,
    doc_type: &str,
    item: View<'a>,
    device: &mut Recorder<D>,
) -> Result<IssuerStatement<'a>, CheckEnd>
    ensures asked { Follows (issued trust.now.roots.now trust.now.moment doc_type.now (part item.entry)) (talk device.old) (talk device.new) (came_to issued_seen result) }
    ensures lengths { IfOk result (λ it. have_length (object_seen it.object).digests ≡ true) }
    ensures gave { Gave D.gives D.unasked D.faults device.old device.new }
    ensures counts { Counts (fails result) (D.faults (inner device.old)) (D.faults (inner device.new)) }
{
    let object = match issued_object(alloc, trust, doc_type, item, device) {
        Ok(object) => object,
        Err(stop) => return Err(stop),
    };
    match device_key(&object) {
        Some(key) => Ok(IssuerStatement { object, key }),
        None => Err(CheckEnd::Refused(DocCheck::DeviceKeyForm)),
    }
}
