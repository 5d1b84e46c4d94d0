//! What a spec says.

use crate::spec_element::SpecElement;
use crate::spec_signer::SpecSigner;
use mdoc_outside::{Octets, Rows};

/// What a spec says. Moments are in seconds since 1970.
#[derive(Drop)]
pub(crate) struct SpecFields {
    pub(crate) doc_type: Octets,
    pub(crate) uses_mac: bool,
    pub(crate) copies: u32,
    pub(crate) signer: SpecSigner,
    pub(crate) signed: i64,
    pub(crate) from: i64,
    pub(crate) until: i64,
    pub(crate) update: Option<i64>,
    pub(crate) elements: Rows<SpecElement>,
}
