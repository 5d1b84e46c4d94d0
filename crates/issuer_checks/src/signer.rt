//! The signer of a document's security object.

ghost use Rattle.std.specs.Prelude.{◌≡◌};
ghost use Rattle.cbor_view.specs.View.{part};
ghost use Rattle.cert_view.specs.Cert.{fields};
ghost use Rattle.key_device.specs.Gave.{Counts, Gave};
ghost use Rattle.key_device.specs.Plan.{Follows};
ghost use Rattle.key_device.specs.Recording.{inner, talk};
ghost use Rattle.verdict_model.specs.IssuerStatement.{signer_of, trusted_signer};
ghost use Rattle.issuer_checks.specs.Ending.{came_to, fails};
ghost use Rattle.issuer_checks.specs.Views.{signer_seen};

use crate::issuer_auth::IssuerAuth;
use crate::roots::signing_root;
use crate::{CheckEnd, TrustedRoots};
use cbor_view::View;
use cert_view::Cert;
use key_device::{KeyDevice, Recorder};
use root_trust::{are_valid, has_named_root};
use verdict_model::DocCheck;

/// The issuer's signature with its signer.
#[derive(Clone, Copy)]
pub(crate) struct Signer<'a> {
    /// The signature.
    pub(crate) auth: IssuerAuth<'a>,
    /// The certificate of the signer.
    pub(crate) cert: Cert<'a>,
}

/// Whether a certificate is one of a document signer, which a trusted root of its issuer's name signed and which is valid
/// with that root at the moment.
#[tactic(auto, using(key_device::proofs::PlanLemmas::exits, key_device::proofs::GaveLemmas::gave_exits))]
fn trusted_signer<D: KeyDevice>(
    trust: &TrustedRoots<'_>,
    cert: &Cert<'_>,
    device: &mut Recorder<D>,
) -> Result<(), CheckEnd>
    ensures asked { Follows (trusted_signer trust.now.roots.now trust.now.moment (fields cert.now)) (talk device.old) (talk device.new) (came_to (λ u. u) result) }
    ensures gave { Gave D.gives D.unasked D.faults device.old device.new }
    ensures counts { Counts (fails result) (D.faults (inner device.old)) (D.faults (inner device.new)) }
{
    if !has_named_root(cert, trust.roots) {
        return Err(CheckEnd::Refused(DocCheck::CertUntrusted));
    }
    let root = match signing_root(cert, trust.roots, device) {
        Ok(Some(root)) => root,
        Ok(None) => return Err(CheckEnd::Refused(DocCheck::CertSignature)),
        Err(stop) => return Err(stop),
    };
    if !are_valid(trust.moment, cert, root) {
        return Err(CheckEnd::Refused(DocCheck::CertTime));
    }
    if !cert.signs_documents() {
        return Err(CheckEnd::Refused(DocCheck::KeyUse));
    }
    Ok(())
}

/// The issuer's signature that an item is, with its trusted signer.
#[tactic(auto, using(key_device::proofs::PlanLemmas::exits, key_device::proofs::GaveLemmas::gave_exits))]
pub(crate) fn signer_of<'a, D: KeyDevice>(
    trust: &TrustedRoots<'_>,
    item: View<'a>,
    device: &mut Recorder<D>,
) -> Result<Signer<'a>, CheckEnd>
    ensures asked { Follows (signer_of trust.now.roots.now trust.now.moment (part item.entry)) (talk device.old) (talk device.new) (came_to signer_seen result) }
    ensures gave { Gave D.gives D.unasked D.faults device.old device.new }
    ensures counts { Counts (fails result) (D.faults (inner device.old)) (D.faults (inner device.new)) }
{
    let Some(auth) = IssuerAuth::read(item) else {
        return Err(CheckEnd::Refused(DocCheck::IssuerAuthForm));
    };
    let Some(cert) = auth.certificate() else {
        return Err(CheckEnd::Refused(DocCheck::CertForm));
    };
    match trusted_signer(trust, &cert, device) {
        Ok(()) => Ok(Signer { auth, cert }),
        Err(stop) => Err(stop),
    }
}
