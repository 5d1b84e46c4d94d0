// A document of a wishes file whose wishes are being read.
use doc_request::WishDraft;
use mdoc_outside::Octets;

// A document whose wishes are being read.
#[derive(Drop)]
pub(crate) struct OpenDocument {
    pub(crate) doc_type: Octets,
    pub(crate) wishes: Vec<WishDraft>,
}
