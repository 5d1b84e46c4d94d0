//! What a document's issuer is believed by.

use cert_view::Root;

/// What a document's issuer is believed by.
#[derive(Clone, Copy)]
pub struct TrustedRoots<'a> {
    /// The trusted roots, in their order.
    pub roots: &'a [Root],
    /// The moment of the check, in seconds since 1970.
    pub moment: i64,
}
