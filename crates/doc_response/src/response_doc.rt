//! A document of a response.

ghost use Rattle.std.specs.Prelude.{◌≡◌};
ghost use Rattle.cbor_view.specs.View.{part};

use crate::ResponseItems;
use crate::device_part::DevicePart;
use crate::issuer_part::IssuerPart;
use cbor_view::View;

/// A document of a response (Document; ISO/IEC 18013-5, 8.3.2.1.2.2), borrowed from the bytes that spell it.
#[derive(Clone, Copy)]
pub struct ResponseDoc<'a> {
    pub(crate) doc_type: &'a str,
    pub(crate) issuer: IssuerPart<'a>,
    pub(crate) device: DevicePart<'a>,
}

impl<'a> ResponseDoc<'a> {
    ghost use Rattle.doc_response.specs.ResponseDocs.{document_seen};
    ghost use Rattle.doc_response.specs.ResponseItems.{items_left};

    /// The document type.
    pub fn doc_type(&self) -> &'a str
        ensures { result.now ≡ (document_seen self.now).doc_type }
    {
        self.doc_type
    }

    /// The issuer's signature (9.1.2.4), of any form.
    pub fn issuer_auth(&self) -> View<'a>
        ensures { part result ≡ (document_seen self.now).issuer_auth }
    {
        self.issuer.auth
    }

    /// The items in their order, each with its namespace and of any form.
    pub fn items(&self) -> ResponseItems<'a>
        ensures { items_left result ≡ (document_seen self.now).items }
    {
        ResponseItems {
            ns: "",
            items: None,
            namespaces: self.issuer.namespaces,
        }
    }

    /// The bytes of the map of namespaces that the device signed (9.1.3.4), as they were received.
    pub fn device_namespaces(&self) -> &'a [u8]
        ensures { result.now ≡ (document_seen self.now).device_namespaces }
    {
        self.device.namespaces
    }

    /// The device's authentication, a map of any keys (9.1.3.4).
    pub fn device_auth(&self) -> View<'a>
        ensures { part result ≡ (document_seen self.now).device_auth }
    {
        self.device.auth
    }
}
