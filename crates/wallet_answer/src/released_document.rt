//! A document of which something is released.

use doc_response::AnsweredDocument;
use wallet_model::ReleasedAt;

/// A document of which something is released.
#[derive(Drop)]
pub struct ReleasedDocument<'a> {
    /// The number of its device key.
    pub key: u32,
    /// Whether it is authenticated by a MAC.
    pub uses_mac: bool,
    /// The issuer's signature as it is stored.
    pub issuer_auth: &'a [u8],
    /// What is answered.
    pub answered: AnsweredDocument<'a>,
    /// The places of the released items.
    pub places: Vec<ReleasedAt>,
}
