//! What the issuer signed of a document.

ghost use Rattle.std.specs.Prelude.{◌≡◌, true};
ghost use Rattle.doc_response.specs.ResponseView.{are_namespaces, pairs_or_none};

use cbor_view::{Pairs, View};

/// What the issuer signed of a document (IssuerSigned; ISO/IEC 18013-5, 8.3.2.1.2.2).
#[derive(Clone, Copy)]
pub(crate) struct IssuerPart<'a> {
    pub(crate) namespaces: Option<Pairs<'a>>,
    pub(crate) auth: View<'a>,
    ghost spelled: { are_namespaces (pairs_or_none namespaces) ≡ true },
}
