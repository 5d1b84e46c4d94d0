//! The device's authentication of a document.

/// The device's authentication of a document (DeviceAuth; ISO/IEC 18013-5, 9.1.3.4).
#[derive(Clone, Copy)]
pub enum DeviceAuth {
    /// A signature with ES256: r and then s, 32 bytes each (9.1.3.6).
    Signature([u8; 64]),
    /// A code of HMAC 256/256 (9.1.3.5).
    Mac([u8; 32]),
}
