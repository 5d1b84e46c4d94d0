//! What a security object is written from.

use key_device::Point;
use mdoc_outside::Octets;

/// What a security object is written from (ISO/IEC 18013-5, 9.1.2.4).
#[derive(Clone, Copy)]
pub struct MsoDraft<'a> {
    /// The document type.
    pub doc_type: &'a str,
    /// The digests, each with its namespace and its digest identifier.
    pub digests: &'a [(Octets, u64, [u8; 32])],
    /// The device key.
    pub device_key: Point,
    /// When it is signed, in seconds since 1970.
    pub signed: i64,
    /// From when it is valid, in seconds since 1970.
    pub from: i64,
    /// Until when it is valid, in seconds since 1970.
    pub until: i64,
    /// When an update is expected, in seconds since 1970.
    pub update: Option<i64>,
}
