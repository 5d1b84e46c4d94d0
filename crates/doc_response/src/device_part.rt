//! What the device signed of a document.

use cbor_view::View;

/// What the device signed of a document (DeviceSigned; ISO/IEC 18013-5, 8.3.2.1.2.2), and its authentication.
#[derive(Clone, Copy)]
pub(crate) struct DevicePart<'a> {
    pub(crate) namespaces: &'a [u8],
    pub(crate) auth: View<'a>,
}
