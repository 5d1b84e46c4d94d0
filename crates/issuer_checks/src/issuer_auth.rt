//! The issuer's signature in its form.

ghost use Rattle.std.specs.Prelude.{◌≡◌, option_map};
ghost use Rattle.cbor_view.specs.View.{part};
ghost use Rattle.cert_view.specs.Cert.{fields};
ghost use Rattle.verdict_model.specs.IssuerStatement.{issuer_auth, signer_certificate};

use cbor_view::View;
use cert_view::Cert;
use cose_msgs::Sign1;

/// The issuer's signature in its form (ISO/IEC 18013-5, 9.1.2.4): with a payload.
#[derive(Clone, Copy)]
pub(crate) struct IssuerAuth<'a> {
    /// The signature.
    pub(crate) signed: Sign1<'a>,
    /// The payload.
    pub(crate) payload: &'a [u8],
}

impl<'a> IssuerAuth<'a> {
    ghost use Rattle.issuer_checks.specs.Views.{auth_seen};

    /// The signature that an item is, where it has its form.
    pub(crate) fn read(item: View<'a>) -> Option<IssuerAuth<'a>>
        ensures { option_map auth_seen result ≡ issuer_auth (part item.entry) }
    {
        let Ok(signed) = Sign1::read(item) else {
            return None;
        };
        let payload = signed.payload()?;
        Some(IssuerAuth { signed, payload })
    }

    /// The certificate of its signer, the first of its chain, where it reads.
    pub(crate) fn certificate(&self) -> Option<Cert<'a>>
        ensures { option_map fields result ≡ signer_certificate (auth_seen self.now) }
    {
        let chain = self.signed.chain()?;
        match Cert::read(chain) {
            Ok(cert) => Some(cert),
            Err(_) => None,
        }
    }
}
