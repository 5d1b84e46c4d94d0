//! A reader's authentication in its form.

ghost use Rattle.std.specs.Prelude.{◌≡◌, option_map};
ghost use Rattle.cbor_view.specs.View.{part};
ghost use Rattle.doc_request.specs.Known.{authentication, authentication_of};

use crate::DocAsk;
use cbor_view::View;
use cert_view::Cert;
use cose_msgs::Sign1;

/// A reader's authentication (ISO/IEC 18013-5, 9.1.4): a signature with a detached payload and a chain, whose first
/// certificate reads.
#[derive(Clone, Copy)]
pub(crate) struct Authentication<'a> {
    /// The signature.
    pub(crate) signed: Sign1<'a>,
    /// The reader's certificate.
    pub(crate) cert: Cert<'a>,
}

impl<'a> Authentication<'a> {
    ghost use Rattle.doc_request.specs.KnownView.{authentication_seen};
    ghost use Rattle.doc_request.specs.Views.{document_seen};

    /// That of a document, where it has one in its form.
    pub(crate) fn of_document(document: &DocAsk<'a>) -> Option<Authentication<'a>>
        ensures { option_map authentication_seen result ≡ authentication_of (document_seen document.now) }
    {
        match document.reader_auth() {
            Some(item) => Authentication::read(item),
            None => None,
        }
    }

    /// The authentication that an item is, where it has its form.
    fn read(item: View<'a>) -> Option<Authentication<'a>>
        ensures { option_map authentication_seen result ≡ authentication (part item.entry) }
    {
        let Ok(signed) = Sign1::read(item) else {
            return None;
        };
        if signed.payload().is_some() {
            return None;
        }
        let chain = signed.chain()?;
        let Ok(cert) = Cert::read(chain) else {
            return None;
        };
        Some(Authentication { signed, cert })
    }
}
